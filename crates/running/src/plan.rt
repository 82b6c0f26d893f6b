// Checking a plan: from the initial state of a task, step by step, to its goal.
ghost use Rattle.std.specs.Prelude.{◌≡◌};
ghost use Rattle.reading.specs.Trees.{task_tree};
ghost use Rattle.outcomes.specs.Runs.{plan_outcome};
ghost use Rattle.running.specs.Answers.{outcome_of, Judged};

use crate::run::{Accepted, Running};
use tasks::task::Task;
use words::fault::Fault;

// Checks the plan, a list of operator numbers: starts a run, makes each step in turn, and finishes it.
pub fn check_plan(task: &Task<'_>, plan: &[u32]) -> Result<Accepted, Fault>
    ensures outcome { outcome_of result ≡ plan_outcome (task_tree task.now.words.now) plan.now }
    ensures judged { Judged (task_tree task.now.words.now) plan.now result }
{
    let mut run = Running::start(task);
    for number in plan {
        run = run.step(task, *number)?;
    }
    run.finish(task)
}
