// Refusals in words: what is wrong, and where.
ghost use Rattle.std.specs.Prelude.{◌≡◌, Some};
ghost use Rattle.reading.specs.Trees.{task_tree};
ghost use Rattle.telling.specs.Reasons.{clash_at, reason_text};

use crate::layers::layer_name;
use crate::location::Location;
use crate::sentences::print_refusal;
use std::{fmt, io};
use tasks::task::Task;
use words::fault::{Fault, Refusal};

// Tells why a step by the operator of that number is refused.
#[derive(Clone, Copy)]
pub struct Reason<'a> {
    pub task: &'a Task<'a>,
    pub number: u32,
    pub fault: Fault,
}

impl Reason<'_> {
    // The variable that the operator sets and clears together: the fault's place is the effect's place plus it.
    fn variable(&self) -> u32
        ensures { result ≡ clash_at (task_tree self.now.task.now.words.now) self.now.number self.now.fault.place }
    {
        match self.task.operator(self.number) {
            Ok(operator) => self.fault.place.saturating_sub(operator.effect().place()),
            Err(_) => self.fault.place,
        }
    }
}

impl fmt::Display for Reason<'_> {
    ghost output = { λ reason. Some (reason_text (task_tree reason.task.now.words.now) reason.number reason.fault.refusal reason.fault.place) };

    fn fmt<W: fmt::Write>(&self, f: &mut fmt::Formatter<W>) -> fmt::Result {
        match self.fault.refusal {
            Refusal::NoSuchOperator => write!(
                f,
                "the task has {} operators, numbered from 0",
                self.task.operators()
            ),
            Refusal::PreconditionFalse => f.write_str("what it needs is false"),
            Refusal::SetAndCleared => write!(f, "it sets and clears v{} together", self.variable()),
            refusal => write!(f, "{refusal}"),
        }
    }
}

// A fault of a file.
pub fn print_file_fault(rt: &impl Print, file: &str, fault: Fault) -> io::Result<()> {
    print_refusal(rt, file, fault.refusal)?;
    println!(rt; "  where: word {} of {file}", fault.place)
}

// A fault of the task with these words. Words and fault stay two parameters here and below: a struct of both would only be taken
// apart again.
pub fn print_task_fault(rt: &impl Print, words: &[u32], fault: Fault) -> io::Result<()> {
    let place = fault.place;
    print_refusal(rt, layer_name(fault.layer), fault.refusal)?;
    println!(rt;
        "  where: word {place} of the task, {}",
        Location { words, place }
    )
}

// The step of the plan, with the operator that the plan asks for there; none behind its last step.
fn print_step(rt: &impl Print, plan: &[u32], step: u32) -> io::Result<()> {
    match plan.get(step as usize) {
        Some(number) => print!(rt; "  where: step {step}, by operator {number}"),
        None => print!(rt; "  where: after all {step} steps"),
    }
}

// Where in the task a fault of a run is; nothing if the fault has no place.
fn print_run_place(rt: &impl Print, words: &[u32], fault: Fault) -> io::Result<()> {
    let place = fault.place;
    match fault.refusal {
        Refusal::PreconditionFalse | Refusal::GoalMissed => {
            print!(rt; "; word {place} of the task, {}", Location { words, place })
        }
        Refusal::SetAndCleared => {
            print!(rt; "; place {place}, the effect's first word plus the variable")
        }
        _ => Ok(()),
    }
}

// A fault of the plan's run, in the task with these words.
pub fn print_run_fault(
    rt: &impl Print,
    words: &[u32],
    plan: &[u32],
    fault: Fault,
) -> io::Result<()> {
    print_refusal(rt, layer_name(fault.layer), fault.refusal)?;
    print_step(rt, plan, fault.step)?;
    print_run_place(rt, words, fault)?;
    println!(rt)
}
