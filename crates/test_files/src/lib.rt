//! Files of images, written and read byte for byte, and damaged ones; mutated files of tables, trees
//! and documents; images as JSON; and pictures.
#![tactic(auto)]

#[cfg(test)]
mod damaged;
#[cfg(test)]
mod drawn;
#[cfg(test)]
mod file_memory;
#[cfg(test)]
mod files;
#[cfg(test)]
mod json;
#[cfg(test)]
mod json_memory;
#[cfg(test)]
mod large;
#[cfg(test)]
mod mutated_documents;
#[cfg(test)]
mod mutated_tables;
#[cfg(test)]
mod mutated_trees;
#[cfg(test)]
mod mutating;
#[cfg(test)]
mod picture_memory;
#[cfg(test)]
mod pictures;
#[cfg(test)]
mod reloaded;
#[cfg(test)]
mod room;
#[cfg(test)]
mod stored;
