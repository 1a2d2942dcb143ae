//! What tests call of a graph. These calls have no contracts, so that a test is proved without the
//! library's.

use example_libraries::memos::Formula;
use generational_box::{Location, Storage, StoreError};
use reactive::{Fault, Key, Node, Reactive, Scope, Told};

/// The calls of a graph.
pub(crate) trait Graph {
    fn source(&mut self, value: u64) -> Result<Key, StoreError>;

    fn memo(&mut self, rule: Formula) -> Result<Key, StoreError>;

    fn source_in(&mut self, scope: &mut Scope, value: u64) -> Result<Key, StoreError>;

    fn memo_in(&mut self, scope: &mut Scope, rule: Formula) -> Result<Key, StoreError>;

    fn set(&mut self, key: Key, value: u64) -> Result<(), Fault>;

    fn set_rule(&mut self, key: Key, rule: Formula) -> Result<(), Fault>;

    fn end(&mut self, key: Key) -> Result<(), Fault>;

    fn end_scope(&mut self, scope: Scope) -> Result<(), Fault>;

    fn get(&mut self, key: Key) -> Result<u64, Fault>;

    /// The same, looked at in place.
    fn seen(&mut self, key: Key) -> Result<u64, Fault>;

    fn watch(&mut self, key: Key, tag: u64) -> Result<Option<(Key, u64)>, Fault>;

    fn unwatch(&mut self, key: Key);

    fn flush(&mut self, told: &mut Vec<Told<u64>>) -> Result<(), StoreError>;

    /// Whether a node is in the graph.
    fn is_live(&self, key: Key) -> bool;

    /// Whether a node is known without a step.
    fn is_known(&self, key: Key) -> bool;

    /// How often a rule has come to a value.
    fn runs(&self) -> u64;
}

/// A graph whose calls are tested.
#[derive(Drop)]
pub(crate) struct Tested<G>(pub(crate) G);

impl<S: Storage<Node<u64, Formula>>> Graph for Tested<Reactive<u64, Formula, S>> {
    fn source(&mut self, value: u64) -> Result<Key, StoreError> {
        self.0.source(value, here())
    }

    fn memo(&mut self, rule: Formula) -> Result<Key, StoreError> {
        self.0.memo(rule, here())
    }

    fn source_in(&mut self, scope: &mut Scope, value: u64) -> Result<Key, StoreError> {
        scope.source(&mut self.0, value, here())
    }

    fn memo_in(&mut self, scope: &mut Scope, rule: Formula) -> Result<Key, StoreError> {
        scope.memo(&mut self.0, rule, here())
    }

    fn set(&mut self, key: Key, value: u64) -> Result<(), Fault> {
        self.0.set(key, value)
    }

    fn set_rule(&mut self, key: Key, rule: Formula) -> Result<(), Fault> {
        self.0.set_rule(key, rule)
    }

    fn end(&mut self, key: Key) -> Result<(), Fault> {
        self.0.end_all(&[key])
    }

    fn end_scope(&mut self, scope: Scope) -> Result<(), Fault> {
        match scope.end(&mut self.0) {
            Ok(()) => Ok(()),
            Err((scope, fault)) => {
                scope.leak();
                Err(fault)
            }
        }
    }

    fn get(&mut self, key: Key) -> Result<u64, Fault> {
        self.0.get(key)
    }

    fn seen(&mut self, key: Key) -> Result<u64, Fault> {
        self.0.refresh(key)?;
        Ok(self.0.peek(key).copied().unwrap_or(0))
    }

    fn watch(&mut self, key: Key, tag: u64) -> Result<Option<(Key, u64)>, Fault> {
        self.0.watch(key, tag)
    }

    fn unwatch(&mut self, key: Key) {
        self.0.unwatch(key);
    }

    fn flush(&mut self, told: &mut Vec<Told<u64>>) -> Result<(), StoreError> {
        self.0.flush(told)
    }

    fn is_live(&self, key: Key) -> bool {
        self.0.is_live(key)
    }

    fn is_known(&self, key: Key) -> bool {
        self.0.peek(key).is_some()
    }

    fn runs(&self) -> u64 {
        self.0.runs()
    }
}

fn here() -> Location {
    Location::new("graph_calls.rt", 1, 1)
}
