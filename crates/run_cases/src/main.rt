#![tactic(auto)]
// The examples of runs: steps and plans of small tasks, every refusal of a run, the limits, the verdict's
// lines, and the conditions of literals.
mod cells;
mod conditions;
mod example;
mod files;
mod found;
mod limits;
mod refused;
mod steps;
mod trying;
mod valued;
mod widths;
mod words_of;

use samples::table::Table;
use std::io;

fn plans(table: &mut Table<'_>) -> io::Result<()> {
    table.all(&steps::STEPS)?;
    table.all(&steps::BACKWARDS)?;
    table.all(&steps::BLOCKS)?;
    table.all(&steps::EQUAL)?;
    table.all(&refused::SMALL_CELL)?;
    table.all(&refused::NO_OPERATOR)?;
    table.all(&refused::TOGETHER)?;
    table.all(&refused::AT_FINISH)
}

fn at_limits(table: &mut Table<'_>) -> io::Result<()> {
    table.all(&limits::STEPS)?;
    table.all(&limits::WAITING)?;
    table.all(&limits::WORDS)
}

fn run(rt: &HostRuntime) -> anyhow::Result<()> {
    let mut table = Table::new(rt);
    plans(&mut table)?;
    at_limits(&mut table)?;
    table.all(&widths::CALLS)?;
    table.all(&files::FILES)?;
    table.all(&conditions::CONDITIONS)?;
    table.end()?;
    Ok(())
}

fn main(rt: HostRuntime) -> anyhow::Result<()> {
    run(&rt)
}
