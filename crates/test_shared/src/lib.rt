//! Scenarios of threads: stores that they share, with what calls return, what the audited history has,
//! and that each waiting call returns; and boxes and guards of a sequential store that they exchange. The
//! expected values are worked out by hand.
#![tactic(auto)]

#[cfg(test)]
mod beside;
#[cfg(test)]
mod chunks;
#[cfg(test)]
mod judging;
#[cfg(test)]
mod kinds;
#[cfg(test)]
mod memory;
#[cfg(test)]
mod rows;
#[cfg(test)]
mod sending;
#[cfg(test)]
mod stages;
#[cfg(test)]
mod together;
#[cfg(test)]
mod unshared;
#[cfg(test)]
mod waking;
