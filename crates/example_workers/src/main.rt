//! Runs the programs of the page on threads.
#![tactic(auto)]

#[cfg(test)]
mod alone;
mod counted;
mod sessions;
mod steady;
mod table;
mod workers;

fn main(rt: HostRuntime) -> anyhow::Result<()> {
    workers::main(&rt)?;
    table::main(&rt)?;
    sessions::main(&rt)?;
    steady::main(&rt)
}
