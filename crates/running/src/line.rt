// The line that tells the verdict on a task's file and a plan's file.
ghost use Rattle.std.specs.Prelude.{◌≡◌, ◌↔◌, take, IfOk, codes};
ghost use Rattle.outcomes.specs.Laws.{SolvedFiles, VerdictTells};
ghost use Rattle.outcomes.specs.Verdicts.{verdict_bytes};
ghost use Rattle.running.specs.Answers.{FilesAnswer, OkWhenSolved};

use crate::plan::check_plan;
use crate::run::Accepted;
use lines::{accept_line, error_line};
use std::alloc::{AllocError, Global};
use tasks::task::Task;
use words::file::{FileError, FileKind, words_from_bytes};

// Checks the files in their order: the task's file, its task, the plan's file, and then the plan.
// The two files stay two slices, as a caller may have them apart.
fn check_in_order(heap: Global, task_file: &[u8], plan_file: &[u8]) -> Result<Accepted, FileError>
    ensures { FilesAnswer task_file.now plan_file.now result }
{
    let words = words_from_bytes(heap, FileKind::Task, task_file)?;
    let mut task = Task::built_in();
    task.open(&words)?;
    let plan = words_from_bytes(heap, FileKind::Plan, plan_file)?;
    Ok(check_plan(&task, &plan)?)
}

// Checks the plan of one file on the task of the other: they are accepted exactly when the plan solves the task.
pub fn check_files(heap: Global, task_file: &[u8], plan_file: &[u8]) -> Result<Accepted, FileError>
    ensures answer { FilesAnswer task_file.now plan_file.now result }
    ensures solved { OkWhenSolved task_file.now plan_file.now result }
{
    check_in_order(heap, task_file, plan_file)
}

// The line of what the check of both files answers.
fn checked_line(heap: Global, task_file: &[u8], plan_file: &[u8]) -> Result<Vec<u8>, AllocError>
    ensures { IfOk result (λ line. line.items ≡ verdict_bytes task_file.now plan_file.now) }
{
    match check_files(heap, task_file, plan_file) {
        Ok(accepted) => accept_line(heap, accepted.steps, accepted.changes, accepted.end.bits()),
        Err(error) => error_line(heap, error),
    }
}

// The verdict's line, with its line end; a missing file is given as one with no bytes.
pub fn verdict_line(heap: Global, task_file: &[u8], plan_file: &[u8]) -> Result<Vec<u8>, AllocError>
    ensures bytes { IfOk result (λ line. line.items ≡ verdict_bytes task_file.now plan_file.now) }
    ensures accepts { IfOk result (λ line. (take 6 line.items ≡ codes "ACCEPT") ↔ SolvedFiles task_file.now plan_file.now) }
    ensures tells { IfOk result (λ line. VerdictTells task_file.now plan_file.now line.items) }
{
    checked_line(heap, task_file, plan_file)
}
