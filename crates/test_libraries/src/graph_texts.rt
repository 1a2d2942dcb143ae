//! Memos of texts, whose rules allocate. The test passes whichever allocation fails, and those after it
//! that ask for less: a call that fails to allocate says so, and is made again.

use crate::fresh::{Scene, play_both};
use example_libraries::phrases::Phrase;
use generational_box::{Location, Storage, StoreError};
use reactive::{Fault, Key, Node, Reactive, Text, Value};
use std::alloc::Global;
use std::process::Abort;

/// How often a call is made that fails to allocate.
const TRIES: u64 = 1000;

/// A graph of texts.
#[derive(Drop)]
struct Texts<S: Storage<Node<Text, Phrase>>> {
    alloc: Global,
    graph: Reactive<Text, Phrase, S>,
}

impl<S: Storage<Node<Text, Phrase>>> Texts<S> {
    fn text(&self, rt: &impl Abort, text: &str) -> Text {
        for _ in 0..TRIES {
            if let Ok(text) = Text::from_str(self.alloc, text) {
                return text;
            }
        }
        rt.abort()
    }

    fn source(&mut self, rt: &impl Abort, text: &str) -> Key {
        for _ in 0..TRIES {
            let text = self.text(rt, text);
            if let Ok(key) = self.graph.source(text, here()) {
                return key;
            }
        }
        rt.abort()
    }

    fn twice(&mut self, rt: &impl Abort, a: Key) -> Key {
        for _ in 0..TRIES {
            if let Ok(key) = self.graph.memo(Phrase::Twice(a), here()) {
                return key;
            }
        }
        rt.abort()
    }

    fn joined(&mut self, rt: &impl Abort, a: Key, b: Key) -> Key {
        for _ in 0..TRIES {
            if let Ok(key) = self.graph.memo(Phrase::Joined(a, b), here()) {
                return key;
            }
        }
        rt.abort()
    }

    fn set(&mut self, rt: &impl Abort, key: Key, text: &str) {
        let text = self.text(rt, text);
        assert!(rt; self.graph.set(key, text).is_ok());
    }

    fn end(&mut self, rt: &impl Abort, key: Key) {
        assert!(rt; self.graph.end_all(&[key]).is_ok());
    }

    /// A node shows this text.
    fn shows(&mut self, rt: &impl Abort, key: Key, wanted: &str) {
        let wanted = self.text(rt, wanted);
        match self.answer(rt, key) {
            Ok(text) => assert!(rt; text.same(&wanted)),
            Err(_) => rt.abort(),
        }
    }

    /// A node needs one that has ended.
    fn lacks(&mut self, rt: &impl Abort, key: Key, gone: Key) {
        match self.answer(rt, key) {
            Ok(_) => rt.abort(),
            Err(fault) => assert!(rt; fault == Fault::Gone(gone)),
        }
    }

    /// What a `get` returns when there is memory.
    fn answer(&mut self, rt: &impl Abort, key: Key) -> Result<Text, Fault> {
        for _ in 0..TRIES {
            match self.graph.get(key) {
                Err(Fault::Store(StoreError::OutOfMemory)) => {}
                answer => return answer,
            }
        }
        rt.abort()
    }
}

/// Two names, joined, and twice.
#[derive(Clone, Copy)]
struct Names;

impl Scene<Node<Text, Phrase>> for Names {
    fn play<R: Abort, S: Storage<Node<Text, Phrase>> + Drop>(
        &self,
        rt: &R,
        alloc: Global,
        store: S,
    ) {
        assert!(rt; store.is_fresh());
        let graph = Reactive::new(alloc, store);
        let mut texts = Texts { alloc, graph };
        let first = texts.source(rt, "Ada ");
        let last = texts.source(rt, "Byron");
        let name = texts.joined(rt, first, last);
        let echo = texts.twice(rt, name);
        texts.shows(rt, echo, "Ada ByronAda Byron");
        texts.set(rt, last, "Lovelace");
        texts.shows(rt, name, "Ada Lovelace");
        texts.shows(rt, echo, "Ada LovelaceAda Lovelace");
        texts.end(rt, first);
        texts.lacks(rt, echo, first);
    }
}

fn here() -> Location {
    Location::new("graph_texts.rt", 1, 1)
}

#[test]
fn rules_that_lack_memory_are_run_again(rt: HostRuntime) {
    play_both(&rt, rt.alloc(), &Names);
}
