#![tactic(auto)]
// The program `verdict`: reads the task and the plan in the working folder, and writes the verdict's line.
use folder::read_cell;
use running::line::verdict_line;

fn main(rt: HostRuntime) -> anyhow::Result<()> {
    let files = read_cell(&rt)?;
    rt.write_all(&verdict_line(rt.alloc(), &files.task, &files.plan)?)?;
    Ok(())
}

#[cfg(test)]
mod tests;
