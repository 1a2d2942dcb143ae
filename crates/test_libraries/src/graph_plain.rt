//! Nodes by numbers: what a memo computes, and what each node of a plain table means.

use example_libraries::memos::Formula;
use reactive::Key;

/// What a node is; others are named by their numbers.
#[derive(Clone, Copy)]
pub(crate) enum Plain {
    Ended,
    Value(u64),
    Blank,
    Same(usize),
    Odd(usize),
    Add(usize, usize),
    Pick(usize, usize, usize),
}

impl Plain {
    /// The rule of a memo, by the keys of the nodes. None if one is named that there isn't, or the node
    /// isn't a memo.
    pub(crate) fn rule(self, keys: &[Key]) -> Option<Formula> {
        match self {
            Plain::Ended | Plain::Value(_) => None,
            Plain::Blank => Some(Formula::Blank),
            Plain::Same(a) => Some(Formula::Same(key_at(keys, a)?)),
            Plain::Odd(a) => Some(Formula::Odd(key_at(keys, a)?)),
            Plain::Add(a, b) => Some(Formula::Add(key_at(keys, a)?, key_at(keys, b)?)),
            Plain::Pick(test, a, b) => {
                let test = key_at(keys, test)?;
                Some(Formula::Pick(test, key_at(keys, a)?, key_at(keys, b)?))
            }
        }
    }

    /// What the node gives by what others gave in the round before.
    pub(crate) fn given(self, values: &[Option<u64>]) -> Option<u64> {
        match self {
            Plain::Ended | Plain::Blank => None,
            Plain::Value(value) => Some(value),
            Plain::Same(a) => value_at(values, a),
            Plain::Odd(a) => Some(value_at(values, a)? % 2),
            Plain::Add(a, b) => Some(value_at(values, a)?.wrapping_add(value_at(values, b)?)),
            Plain::Pick(test, a, b) => {
                let place = if value_at(values, test)? != 0 { a } else { b };
                value_at(values, place)
            }
        }
    }

    /// What the node reads by what others gave, in order: up to the first that gave nothing.
    pub(crate) fn reads(self, values: &[Option<u64>]) -> [Option<usize>; 2] {
        match self {
            Plain::Ended | Plain::Value(_) | Plain::Blank => [None, None],
            Plain::Same(a) | Plain::Odd(a) => [Some(a), None],
            Plain::Add(a, b) => [Some(a), value_at(values, a).map(|_| b)],
            Plain::Pick(test, a, b) => {
                let next = value_at(values, test).map(|tested| if tested != 0 { a } else { b });
                [Some(test), next]
            }
        }
    }

    /// The same of other nodes, each the one at that index of the list.
    pub(crate) fn of(self, nodes: &[usize]) -> Plain {
        match self {
            Plain::Ended | Plain::Value(_) | Plain::Blank => self,
            Plain::Same(a) => Plain::Same(node_at(nodes, a)),
            Plain::Odd(a) => Plain::Odd(node_at(nodes, a)),
            Plain::Add(a, b) => Plain::Add(node_at(nodes, a), node_at(nodes, b)),
            Plain::Pick(test, a, b) => {
                let test = node_at(nodes, test);
                Plain::Pick(test, node_at(nodes, a), node_at(nodes, b))
            }
        }
    }
}

/// The node at an index of a list.
pub(crate) fn node_at(nodes: &[usize], place: usize) -> usize {
    nodes.get(place).copied().unwrap_or(0)
}

fn key_at(keys: &[Key], node: usize) -> Option<Key> {
    keys.get(node).copied()
}

/// What a node has given, if anything.
pub(crate) fn value_at(values: &[Option<u64>], node: usize) -> Option<u64> {
    *values.get(node)?
}
