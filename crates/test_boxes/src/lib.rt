//! Scenarios: short histories of calls over stores and sessions, with the results that they must have.
//! The expected values are worked out by hand.
#![tactic(auto)]

#[cfg(test)]
mod again_memory;
#[cfg(test)]
mod box_memory;
#[cfg(test)]
mod callers;
#[cfg(test)]
mod drops;
#[cfg(test)]
mod equality;
#[cfg(test)]
mod example;
#[cfg(test)]
mod examples;
#[cfg(test)]
mod expected;
#[cfg(test)]
mod fresh;
#[cfg(test)]
mod growth;
#[cfg(test)]
mod ids;
#[cfg(test)]
mod limit_memory;
#[cfg(test)]
mod many_names;
#[cfg(test)]
mod peeks;
#[cfg(test)]
mod plenty;
#[cfg(test)]
mod rounds;
#[cfg(test)]
mod rows;
#[cfg(test)]
mod sessions;
#[cfg(test)]
mod shared_memory;
#[cfg(test)]
mod sharing;
#[cfg(test)]
mod strangers;
#[cfg(test)]
mod texts;
#[cfg(test)]
mod tutorial;
#[cfg(test)]
mod values;
#[cfg(test)]
mod views;
