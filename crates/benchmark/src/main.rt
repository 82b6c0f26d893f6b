#![tactic(auto)]
// The program `benchmark`: checks the plan that takes the most work within the limits, and tells the answer. With the
// argument `measure` it also tells how long that took.
mod worst;

use running::plan::check_plan;
use running::run::Accepted;
use std::time::{Duration, Instant};
use std::{env, io};
use tasks::task::Task;
use words::fault::Fault;
use worst::{OPERATOR_WORDS, STEPS};

fn print_answer(rt: &HostRuntime, answer: Result<Accepted, Fault>) -> io::Result<()> {
    match answer {
        Ok(accepted) => {
            let end = accepted.end.bits();
            println!(rt;
                "accepted, {} steps, {} changes, end {end:016x}",
                accepted.steps, accepted.changes
            )
        }
        Err(fault) => {
            let number = fault.refusal.number();
            println!(rt;
                "refused, number {number}, step {}, place {}",
                fault.step, fault.place
            )
        }
    }
}

// The seconds, and the words of preconditions and effects that were read in one of them.
fn print_time(rt: &HostRuntime, taken: Duration) -> io::Result<()> {
    let seconds = taken.as_secs();
    let micros = taken.subsec_micros();
    let words = STEPS as u128 * OPERATOR_WORDS as u128;
    let speed = words * 1_000_000 / (taken.as_micros() + 1);
    println!(rt; "{seconds}.{micros:06} seconds, {words} words read, {speed} words a second")
}

// Whether the program has the argument `measure`.
fn is_measured(rt: &HostRuntime) -> io::Result<bool> {
    let mut words = env::args(rt)?.skip(1);
    Ok(words.any(|word| word.as_str() == "measure"))
}

fn run(rt: &HostRuntime) -> anyhow::Result<()> {
    let words = worst::task_words(rt.alloc())?;
    let plan = worst::plan(rt.alloc())?;
    let mut task = Task::built_in();
    if let Err(fault) = task.open(&words) {
        print_answer(rt, Err(fault))?;
        return Ok(());
    }
    let start = Instant::now(rt)?;
    let answer = check_plan(&task, &plan);
    let taken = start.elapsed(rt)?;
    print_answer(rt, answer)?;
    if is_measured(rt)? {
        print_time(rt, taken)?;
    }
    Ok(())
}

fn main(rt: HostRuntime) -> anyhow::Result<()> {
    run(&rt)
}
