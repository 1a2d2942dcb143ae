//! Scripts: lines of commands with the replies that they must have, and whole runs of the program. The
//! expected values are worked out by hand.
#![tactic(auto)]

#[cfg(test)]
mod alike;
#[cfg(test)]
mod conditions;
#[cfg(test)]
mod counts;
#[cfg(test)]
mod dialect;
#[cfg(test)]
mod drawn;
#[cfg(test)]
mod drawn_counts;
#[cfg(test)]
mod drawn_memory;
#[cfg(test)]
mod drawn_words;
#[cfg(test)]
mod ending;
#[cfg(test)]
mod expected;
#[cfg(test)]
mod freed;
#[cfg(test)]
mod lists;
#[cfg(test)]
mod naming;
#[cfg(test)]
mod numbers;
#[cfg(test)]
mod orders;
#[cfg(test)]
mod owned_lists;
#[cfg(test)]
mod owners;
#[cfg(test)]
mod pairs;
#[cfg(test)]
mod pointing;
#[cfg(test)]
mod reading;
#[cfg(test)]
mod references;
#[cfg(test)]
mod runs;
#[cfg(test)]
mod scripts;
#[cfg(test)]
mod shared;
#[cfg(test)]
mod streams;
#[cfg(test)]
mod tables;
#[cfg(test)]
mod writers;
