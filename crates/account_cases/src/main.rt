#![tactic(auto)]
// The accounts of plans, tasks and files that are refused, one for each kind of refusal.
mod examples;

use examples::Example;
use std::io;
use telling::account::print_account;

// The example's name, and the account under it.
fn print_example(rt: &HostRuntime, example: &Example) -> io::Result<()> {
    let task = example.task.bytes(rt.alloc())?;
    let plan = example.plan.bytes(rt.alloc())?;
    println!(rt; "-- {}", example.name)?;
    print_account(rt, &task, &plan)
}

fn run(rt: &HostRuntime) -> anyhow::Result<()> {
    for example in &examples::REFUSED {
        print_example(rt, example)?;
    }
    Ok(())
}

fn main(rt: HostRuntime) -> anyhow::Result<()> {
    run(&rt)
}
