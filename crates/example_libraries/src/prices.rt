//! Signals and memos: the price of an order follows from its parts.

ghost use Rattle.example_libraries.specs.Prices.{plan_of};

use anyhow::Result;
use generational_box::{Location, Storage, UnsyncStorage};
use reactive::{Key, Node, Reactive, Reads, Rule};
use std::alloc::Global;

/// What a memo computes from two nodes.
#[derive(Clone, Copy)]
enum Formula {
    Sum(Key, Key),
    Product(Key, Key),
}

impl Rule<u64> for Formula {
    ghost plan = { plan_of };

    fn compute<D: Reads<u64>>(&self, reader: &mut D) -> Option<u64> {
        match *self {
            Formula::Sum(a, b) => {
                let x = reader.get(a)?;
                let y = reader.get(b)?;
                Some(x.wrapping_add(y))
            }
            Formula::Product(a, b) => {
                let x = reader.get(a)?;
                let y = reader.get(b)?;
                Some(x.wrapping_mul(y))
            }
        }
    }
}

pub fn main(rt: HostRuntime) -> Result<()> {
    let store = UnsyncStorage::<Node<u64, Formula>>::new(rt.alloc(), 1);
    let mut graph = Reactive::new(rt.alloc(), store);
    order(&rt, rt.alloc(), &mut graph)
}

fn order<R: Print, S: Storage<Node<u64, Formula>>>(
    rt: &R,
    alloc: Global,
    graph: &mut Reactive<u64, Formula, S>,
) -> Result<()> {
    // Sources are set, and memos are computed from other nodes.
    let here = Location::new("prices.rt", 48, 16);
    let pieces = graph.source(3, here)?;
    let price = graph.source(20, here)?;
    let postage = graph.source(5, here)?;
    let goods = graph.memo(Formula::Product(pieces, price), here)?;
    let total = graph.memo(Formula::Sum(goods, postage), here)?;
    change(rt, graph, pieces, price, total)?;
    watch(rt, alloc, graph, postage, total)?;
    end(rt, graph, price, total)
}

fn change<R: Print, S: Storage<Node<u64, Formula>>>(
    rt: &R,
    graph: &mut Reactive<u64, Formula, S>,
    pieces: Key,
    price: Key,
    total: Key,
) -> Result<()> {
    println!(rt; "total {}", graph.get(total)?)?;
    // Several sets are a batch: no rule is run before something is read.
    graph.set(pieces, 4)?;
    graph.set(price, 18)?;
    println!(rt; "total {}, {} runs", graph.get(total)?, graph.runs())?;
    Ok(())
}

// A watched node is reported, with a number of ours, if it means something else.
fn watch<R: Print, S: Storage<Node<u64, Formula>>>(
    rt: &R,
    alloc: Global,
    graph: &mut Reactive<u64, Formula, S>,
    postage: Key,
    total: Key,
) -> Result<()> {
    let mut told = Vec::new(alloc);
    graph.watch(total, 7)?;
    graph.flush(&mut told)?;
    graph.set(postage, 0)?;
    graph.flush(&mut told)?;
    for change in told.iter() {
        println!(rt; "told {}: {:?}", change.tag, change.answer)?;
    }
    graph.unwatch(total);
    Ok(())
}

// Without a node that it needs, a memo is an error.
fn end<R: Print, S: Storage<Node<u64, Formula>>>(
    rt: &R,
    graph: &mut Reactive<u64, Formula, S>,
    price: Key,
    total: Key,
) -> Result<()> {
    graph.end_all(&[price])?;
    if let Err(fault) = graph.get(total) {
        println!(rt; "{fault}")?;
    }
    Ok(())
}
