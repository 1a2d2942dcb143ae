//! The programs with which the pages begin, run one after the other.
#![tactic(auto)]

mod actors;
mod dialog;
mod idioms;
mod memory;
mod pages;
mod saving;
mod score;
mod started;
mod threads;
mod values;
mod window;

use example_libraries::{prices, proving};

fn main(rt: HostRuntime) -> anyhow::Result<()> {
    score::main(rt)?;
    started::main(rt)?;
    values::main(rt)?;
    dialog::main(rt)?;
    prices::main(rt)?;
    actors::main(rt)?;
    window::main(rt)?;
    pages::main(rt)?;
    threads::main(&rt)?;
    proving::main(rt)?;
    saving::main(rt)?;
    memory::main(rt)?;
    idioms::main(rt)
}
