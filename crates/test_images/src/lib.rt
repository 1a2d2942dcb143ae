//! Stores that are saved as images and loaded again, tables, trees and documents that are taken apart and
//! made again, and images, stores, rows and parts that don't fit. The expected values are worked out by
//! hand.
#![tactic(auto)]

#[cfg(test)]
mod damaged;
#[cfg(test)]
mod documents;
#[cfg(test)]
mod documents_memory;
#[cfg(test)]
mod expected;
#[cfg(test)]
mod forks;
#[cfg(test)]
mod fresh;
#[cfg(test)]
mod image_memory;
#[cfg(test)]
mod images;
#[cfg(test)]
mod logins;
#[cfg(test)]
mod refused;
#[cfg(test)]
mod scene;
#[cfg(test)]
mod tables;
#[cfg(test)]
mod trees;
#[cfg(test)]
mod trees_memory;
