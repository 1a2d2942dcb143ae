//! Shared stores that are saved as images, and others that go on from these. The expected values are
//! worked out by hand.
#![tactic(auto)]

#[cfg(test)]
mod going_on;
#[cfg(test)]
mod restarts;
#[cfg(test)]
mod saving;
