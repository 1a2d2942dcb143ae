//! Which todos a memo takes of another node's list.

ghost use Rattle.std.specs.Prelude.{◌≡◌, ◌≢◌, IfOk, length};
ghost use Rattle.std.specs.List.{filter};
ghost use Rattle.reactive.specs.Graphs.{plans_in};
ghost use Rattle.todo_list.specs.Todos.{filter_plan, is_shown};

use generational_box::Storage;
use reactive::laws::sets_show_in_memos;
use reactive::{Fault, Items, Key, Node, Reactive, Reads, Rule, Text, Value};
use std::alloc::{AllocError, Global};

/// Todos: each a title, and whether it is done.
pub type Todos = Items<(Text, bool)>;

/// The todos of a list that are done, or open, or all of them.
#[derive(Clone, Copy)]
pub struct Filter {
    pub all: Key,
    pub done: Option<bool>,
    pub alloc: Global,
}

// Copies of the todos that are shown, in order.
fn shown(alloc: Global, todos: &[(Text, bool)], done: Option<bool>) -> Result<Todos, AllocError>
    ensures { IfOk result (λ made. made ≡ filter (λ t. is_shown done t.1) todos.now) }
{
    let mut made = Items::new(alloc);
    for todo in todos {
        if done.is_none() || done == Some(todo.1) {
            made.push(todo.copy()?)?;
        }
    }
    Ok(made)
}

impl Rule<Todos> for Filter {
    ghost plan = { filter_plan };

    fn compute<D: Reads<Todos>>(&self, reader: &mut D) -> Option<Todos> {
        let todos = reader.get(self.all)?;
        reader.kept(shown(self.alloc, todos.as_slice(), self.done))
    }
}

/// Sets the list, and reads a memo of it.
pub fn shown_after_set<S: Storage<Node<Todos, Filter>>>(
    graph: &mut Reactive<Todos, Filter, S>,
    wanted: Filter,
    memo: Key,
    todos: Todos,
) -> Result<Todos, Fault>
    requires memo { plans_in filter_plan graph.old memo ≡ filter_plan wanted }
    requires apart { memo ≢ wanted.all }
    ensures { IfOk result (λ shown. shown ≡ filter (λ t. is_shown wanted.done t.1) todos) }
{
    sets_show_in_memos::<Todos, Filter>();
    graph.set(wanted.all, todos)?;
    let shown = graph.get(memo)?;
    Ok(shown)
}

/// Sets the list, and counts the todos that a memo of it has.
pub fn count_after_set<S: Storage<Node<Todos, Filter>>>(
    graph: &mut Reactive<Todos, Filter, S>,
    wanted: Filter,
    memo: Key,
    todos: Todos,
) -> Result<usize, Fault>
    requires memo { plans_in filter_plan graph.old memo ≡ filter_plan wanted }
    requires apart { memo ≢ wanted.all }
    ensures { IfOk result (λ count. count ≡ length (filter (λ t. is_shown wanted.done t.1) todos)) }
{
    let shown = shown_after_set(graph, wanted, memo, todos)?;
    Ok(shown.as_slice().len())
}
