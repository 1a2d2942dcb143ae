//! Memos of texts and of lists, whose rules allocate.

ghost use Rattle.std.specs.Prelude.{◌≡◌, ◌≢◌, ℕ, List, [], ◌∷◌, ◌++◌, length, IfOk};
ghost use Rattle.reactive.specs.Graphs.{plans_in};
ghost use Rattle.reactive.specs.Plans.{Plan, Ask, Give};
ghost use Rattle.example_libraries.specs.Phrases.{phrase_plan, row_plan};

use generational_box::Storage;
use reactive::laws::sets_show_in_memos;
use reactive::{Fault, Items, Key, Node, Reactive, Reads, Rule, Text, Value};
use std::alloc::Global;

/// What a memo computes of texts.
#[derive(Drop)]
pub enum Phrase {
    /// A text twice.
    Twice(Key),
    /// Two texts, one after the other.
    Joined(Key, Key),
    /// The word `none`.
    Blank(Global),
}

impl Rule<Text> for Phrase {
    ghost plan = { phrase_plan };

    fn compute<D: Reads<Text>>(&self, reader: &mut D) -> Option<Text> {
        match self {
            Phrase::Twice(a) => {
                let mut text = reader.get(*a)?;
                let once = reader.kept(text.copy())?;
                reader.kept(text.push_str(once.as_str()))?;
                Some(text)
            }
            Phrase::Joined(a, b) => {
                let mut text = reader.get(*a)?;
                let more = reader.get(*b)?;
                match text.push_str(more.as_str()) {
                    Ok(()) => Some(text),
                    Err(_) => reader.refuse(),
                }
            }
            Phrase::Blank(alloc) => {
                let mut text = Text::new(*alloc);
                reader.kept(text.push_str("none"))?;
                Some(text)
            }
        }
    }
}

/// What a memo computes of lists of numbers.
#[derive(Drop)]
pub enum Row {
    /// A list and another number.
    Longer(Key, u64),
    /// The lengths of two lists, which are looked at where they are.
    Lengths(Key, Key, Global),
}

impl Rule<Items<u64>> for Row {
    ghost plan = { row_plan };

    fn compute<D: Reads<Items<u64>>>(&self, reader: &mut D) -> Option<Items<u64>> {
        match self {
            Row::Longer(list, last) => {
                let mut items = reader.get(*list)?;
                reader.kept(items.push(*last))?;
                Some(items)
            }
            Row::Lengths(a, b, alloc) => {
                let first = reader.with(*a, |items: &Items<u64>| items.as_slice().len() as u64)?;
                let second = reader.with(*b, |items: &Items<u64>| items.as_slice().len() as u64)?;
                let mut lengths = Items::new(*alloc);
                reader.kept(lengths.push(first))?;
                reader.kept(lengths.push(second))?;
                Some(lengths)
            }
        }
    }
}

/// Sets a source, and asks for a memo that has its text twice.
pub fn twice_after_set<S: Storage<Node<Text, Phrase>>>(
    graph: &mut Reactive<Text, Phrase, S>,
    source: Key,
    twice: Key,
    text: Text,
) -> Result<Text, Fault>
    requires memo { plans_in phrase_plan graph.old twice ≡ Ask source (λ x. Give (x ++ x)) }
    requires apart { twice ≢ source }
    ensures { IfOk result (λ shown. shown ≡ text ++ text) }
{
    sets_show_in_memos::<Text, Phrase>();
    graph.set(source, text)?;
    let shown = graph.get(twice)?;
    Ok(shown)
}
