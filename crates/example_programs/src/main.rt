//! Four programs over the libraries, run one after the other: a game and an editor that save and load, a
//! shop, and a wiki.
#![tactic(auto)]

mod editor;
mod game;
mod saving;
mod shop;
mod wiki;

fn main(rt: HostRuntime) -> anyhow::Result<()> {
    game::main(&rt)?;
    editor::main(&rt)?;
    shop::main(&rt)?;
    wiki::main(&rt)
}
