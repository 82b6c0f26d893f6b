// What a plan's check answers, by the ways there are to ask for it.
use crate::example::{Answer, Call, Reached};
use running::line::verdict_line;
use running::plan::check_plan;
use running::run::{Accepted, Running};
use std::alloc::{AllocError, Global};
use std::fmt;
use tasks::task::Task;
use words::fault::Fault;

// Why there is no one answer.
#[derive(Clone, Copy, PartialEq)]
pub enum NotAnswered {
    // the task is refused
    Unopened(Fault),
    // other answers by single steps than by the check of the whole plan
    Unequal,
}

impl From<Fault> for NotAnswered {
    fn from(fault: Fault) -> NotAnswered {
        NotAnswered::Unopened(fault)
    }
}

impl fmt::Display for NotAnswered {
    fn fmt<W: fmt::Write>(&self, f: &mut fmt::Formatter<W>) -> fmt::Result {
        match self {
            NotAnswered::Unopened(fault) => write!(f, "{fault}"),
            NotAnswered::Unequal => f.write_str("other answers by single steps"),
        }
    }
}

// Starts a run, makes each step and finishes: the check of a plan by single calls, with which the one call is compared.
fn by_steps(task: &Task<'_>, plan: &[u32]) -> Result<Accepted, Fault> {
    let mut running = Running::start(task);
    for number in plan {
        running = running.step(task, *number)?;
    }
    running.finish(task)
}

// Checks the plan as a whole and by single steps.
pub fn checked(words: &[u32], plan: &[u32]) -> Result<Answer, NotAnswered> {
    let mut task = Task::built_in();
    task.open(words)?;
    let whole = check_plan(&task, plan).map(Reached::from);
    if whole == by_steps(&task, plan).map(Reached::from) {
        Ok(whole)
    } else {
        Err(NotAnswered::Unequal)
    }
}

// Runs so many steps of operator 0 over the one task, and goes on over the other.
fn over_two(own: &Task<'_>, made: u32, other: &Task<'_>, call: Call) -> Result<Accepted, Fault> {
    let mut running = Running::start(own);
    for _ in 0..made {
        running = running.step(own, 0)?;
    }
    match call {
        Call::Finish => running.finish(other),
        Call::Step(number) => running.step(other, number)?.finish(other),
    }
}

pub fn checked_over_two(
    own: &[u32],
    made: u32,
    other: &[u32],
    call: Call,
) -> Result<Answer, NotAnswered> {
    let mut own_task = Task::built_in();
    let mut other_task = Task::built_in();
    own_task.open(own)?;
    other_task.open(other)?;
    Ok(over_two(&own_task, made, &other_task, call).map(Reached::from))
}

pub fn found_text(heap: Global, found: Result<Answer, NotAnswered>) -> Result<String, AllocError> {
    match found {
        Ok(Ok(reached)) => reached.to_string(heap),
        Ok(Err(fault)) => fault.to_string(heap),
        Err(why) => why.to_string(heap),
    }
}

// The line that the answer has, written here once more and not by `lines`, which the examples try.
pub fn answer_line(heap: Global, answer: Answer) -> Result<String, AllocError> {
    match answer {
        Ok(reached) => {
            format!(in heap;
                "ACCEPT {} {} {:016x}\n",
                reached.steps, reached.changes, reached.end
            )
        }
        Err(fault) => {
            let number = fault.refusal.number();
            format!(in heap; "REFUSE {number} {} {}\n", fault.step, fault.place)
        }
    }
}

// Whether the files with these bytes have that line.
pub fn has_line(heap: Global, task: &[u8], plan: &[u8], line: &str) -> Result<bool, AllocError> {
    let told = verdict_line(heap, task, plan)?;
    Ok(told.as_slice() == line.as_bytes())
}
