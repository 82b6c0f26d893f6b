// The sentences of an account that name no part of a task.
use std::io;
use words::fault::Refusal;

// The line above the steps of a plan.
pub fn print_plan_head(rt: &impl Print, plan: &[u32]) -> io::Result<()> {
    println!(rt;
        "plan: {} steps (+ became true, - became false)",
        plan.len()
    )
}

// The verdict on a plan that is accepted.
pub fn print_acceptance(rt: &impl Print, steps: u32, changes: u32) -> io::Result<()> {
    println!(rt; "verdict: accepted, {steps} steps with {changes} changes of variables")
}

// The verdict on what is refused: which part of the check refuses it, and why.
pub fn print_refusal(rt: &impl Print, by: &str, refusal: Refusal) -> io::Result<()> {
    let number = refusal.number();
    println!(rt; "verdict: refused by {by}, number {number}: {refusal}")
}

// There is no verdict, for want of memory.
pub fn print_no_memory(rt: &impl Print) -> io::Result<()> {
    println!(rt; "verdict: none, there is too little memory")
}
