//! The values of a graph's nodes: numbers, and texts, lists and pairs of values.
//!
//! `reactive` exports them again: a program takes [`Value`], [`Text`] and [`Items`] from there.
#![tactic(auto)]

mod values;

pub use crate::values::{Items, Text, Value};
