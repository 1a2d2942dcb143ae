//! A todo list read from standard input: `add buy milk`, `done 2`, `show open`. After each line it prints
//! the todos that are shown, and how many are open, if that has changed.
#![tactic(auto)]

mod filter;

use crate::filter::{Filter, Todos};
use anyhow::{Result, bail};
use generational_box::{Location, Storage, UnsyncStorage};
use reactive::{Items, Key, Node, Reactive, Text, Value};
use std::alloc::Global;

// The numbers of the watched memos: of the todos that are shown, and of those that are open.
const SHOWN: u64 = 0;

const OPEN: u64 = 1;

fn main(rt: HostRuntime) -> Result<()> {
    let store = UnsyncStorage::new(rt.alloc(), 1);
    let mut graph = Reactive::new(rt.alloc(), store);
    let (all, alloc) = (graph.source(Items::new(rt.alloc()), here())?, rt.alloc());
    let shown = graph.memo(
        Filter {
            all,
            done: None,
            alloc,
        },
        here(),
    )?;
    let open = graph.memo(
        Filter {
            all,
            done: Some(false),
            alloc,
        },
        here(),
    )?;
    graph.watch(shown, SHOWN)?;
    graph.watch(open, OPEN)?;
    for line in rt.lines(rt.alloc()) {
        let line = line?;
        match carry_out(alloc, &mut graph, all, shown, line.trim()) {
            Ok(()) => print(&rt, alloc, &mut graph)?,
            Err(refused) => println!(rt; "{refused}: {line}")?,
        }
    }
    Ok(())
}

fn carry_out<S: Storage<Node<Todos, Filter>>>(
    alloc: Global,
    graph: &mut Reactive<Todos, Filter, S>,
    all: Key,
    shown: Key,
    line: &str,
) -> Result<()> {
    let mut todos = graph.get(all)?;
    match line.split_once(' ') {
        Some(("add", title)) => todos.push((Text::from_str(alloc, title)?, false))?,
        Some(("done", number)) => todos = finished(alloc, &todos, number.parse()?)?,
        Some(("show", which)) => {
            let done = match which {
                "all" => None,
                "open" => Some(false),
                "done" => Some(true),
                _ => bail!("not understood"),
            };
            graph.set_rule(shown, Filter { all, done, alloc })?;
        }
        _ => bail!("not understood"),
    }
    graph.set(all, todos)?;
    Ok(())
}

// The todos, of which this one is done. Numbers start at 1.
fn finished(alloc: Global, todos: &Todos, number: usize) -> Result<Todos> {
    let mut made = Items::new(alloc);
    for (place, todo) in todos.as_slice().iter().enumerate() {
        let (title, is_done) = todo.copy()?;
        made.push((title, is_done || place + 1 == number))?;
    }
    Ok(made)
}

fn print<S: Storage<Node<Todos, Filter>>>(
    rt: &impl Print,
    alloc: Global,
    graph: &mut Reactive<Todos, Filter, S>,
) -> Result<()> {
    let mut told = Vec::new(alloc);
    graph.flush(&mut told)?;
    for change in told.iter() {
        match (&change.answer, change.tag) {
            (Ok(todos), OPEN) => println!(rt; "{} left", todos.as_slice().len())?,
            (Ok(todos), _) => {
                for todo in todos.as_slice() {
                    println!(rt; "[{}] {}", if todo.1 { "x" } else { " " }, todo.0)?;
                }
            }
            (Err(fault), _) => println!(rt; "{fault}")?,
        }
    }
    Ok(())
}

fn here() -> Location {
    Location::new("todo_list.rt", 1, 1)
}
