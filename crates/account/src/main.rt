#![tactic(auto)]
// The program `account`: tells in words what the task and the plan in the working folder are, what each step does, and
// what the verdict means.
use folder::read_cell;
use telling::account::print_account;

fn main(rt: HostRuntime) -> anyhow::Result<()> {
    let files = read_cell(&rt)?;
    print_account(&rt, &files.task, &files.plan)?;
    Ok(())
}
