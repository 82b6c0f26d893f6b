// The account of a task and a plan.
use crate::refused::{print_file_fault, print_run_fault, print_task_fault};
use crate::sentences::{print_acceptance, print_no_memory};
use crate::steps::print_steps;
use crate::task::print_task;
use crate::text::TrueVariables;
use running::line::verdict_line;
use running::plan::check_plan;
use running::run::Accepted;
use std::io;
use tasks::task::Task;
use words::file::{FileError, FileKind, words_from_bytes};

fn print_accepted(rt: &impl Print, accepted: Accepted) -> io::Result<()> {
    let Accepted {
        steps,
        changes,
        end,
    } = accepted;
    print_acceptance(rt, steps, changes)?;
    println!(rt; "  true at the end: {}", TrueVariables(end))
}

// A file that is not read.
fn print_file_error(rt: &impl Print, file: &str, error: FileError) -> io::Result<()> {
    match error {
        FileError::Refused(fault) => print_file_fault(rt, file, fault),
        FileError::NoMemory => print_no_memory(rt),
    }
}

// The steps of the plan, and what comes of them, in the task with these words.
fn print_plan(
    rt: &(impl Print + AllocGlobal),
    words: &[u32],
    task: &Task<'_>,
    plan: &[u32],
) -> io::Result<()> {
    print_steps(rt, task, plan)?;
    match check_plan(task, plan) {
        Ok(accepted) => print_accepted(rt, accepted),
        Err(fault) => print_run_fault(rt, words, plan, fault),
    }
}

// The task, and the plan's file.
fn print_words(rt: &(impl Print + AllocGlobal), words: &[u32], plan_file: &[u8]) -> io::Result<()> {
    let mut task = Task::built_in();
    if let Err(fault) = task.open(words) {
        return print_task_fault(rt, words, fault);
    }
    print_task(rt, &task)?;
    match words_from_bytes(rt.alloc(), FileKind::Plan, plan_file) {
        Ok(plan) => print_plan(rt, words, &task, &plan),
        Err(error) => print_file_error(rt, "the plan's file", error),
    }
}

// The whole account: what the files hold and what the verdict on them means, and last the verdict's line.
pub fn print_account(
    rt: &(impl Print + AllocGlobal),
    task_file: &[u8],
    plan_file: &[u8],
) -> io::Result<()> {
    match words_from_bytes(rt.alloc(), FileKind::Task, task_file) {
        Ok(words) => print_words(rt, &words, plan_file)?,
        Err(error) => print_file_error(rt, "the task's file", error)?,
    }
    rt.write_all(&verdict_line(rt.alloc(), task_file, plan_file)?)
}
