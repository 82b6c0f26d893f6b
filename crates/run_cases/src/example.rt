// What an example of a run is, and what is expected of it.
use running::run::Accepted;
use samples::build::FileBytes;
use std::fmt;
use valuing::making::Literal;
use words::fault::{Fault, Refusal};

// The words of an operator's precondition and of its effect.
#[derive(Clone, Copy)]
pub struct OperatorWords {
    pub needs: &'static [u32],
    pub does: &'static [u32],
}

// A task without its start: the number of variables, the goal's words and the operators.
#[derive(Clone, Copy)]
pub struct Cell {
    pub width: u32,
    pub goal: &'static [u32],
    pub operators: &'static [OperatorWords],
}

// A task with its start, whose bit v is variable v.
#[derive(Clone, Copy)]
pub struct StartedCell {
    pub cell: &'static Cell,
    pub start: u64,
}

// What an accepted plan comes to, in plain numbers.
#[derive(Clone, Copy, PartialEq)]
pub struct Reached {
    pub steps: u32,
    pub changes: u32,
    pub end: u64,
}

impl From<Accepted> for Reached {
    fn from(accepted: Accepted) -> Reached {
        Reached {
            steps: accepted.steps,
            changes: accepted.changes,
            end: accepted.end.bits(),
        }
    }
}

impl fmt::Display for Reached {
    fn fmt<W: fmt::Write>(&self, f: &mut fmt::Formatter<W>) -> fmt::Result {
        write!(
            f,
            "accepted, {} steps, {} changes, end {:x}",
            self.steps, self.changes, self.end
        )
    }
}

// What a plan's check answers.
pub type Answer = Result<Reached, Fault>;

// A task and a plan: the words of the one, and the numbers of the other.
#[derive(Clone, Copy)]
pub struct PlanExample<T, P> {
    pub name: &'static str,
    pub task: T,
    pub plan: P,
    pub expected: Answer,
}

// Two files, and the line that tells the verdict on them.
#[derive(Clone, Copy)]
pub struct FilesExample {
    pub name: &'static str,
    pub task: FileBytes,
    pub plan: FileBytes,
    pub line: &'static str,
}

// What a run does over the other task: a step and the finish, or the finish at once.
#[derive(Clone, Copy)]
pub enum Call {
    Step(u32),
    Finish,
}

// A run of one task that makes so many steps by operator 0, and goes on over another; no variable is true at the start.
#[derive(Clone, Copy)]
pub struct TwoTasks {
    pub name: &'static str,
    pub own: &'static Cell,
    pub made: u32,
    pub other: &'static Cell,
    pub call: Call,
    pub expected: Answer,
}

// The condition under which an operator's effect makes a literal true, in all states of a width of at most 5. It is true
// in some of them, bit s for the state with the number s, or it has no value, and why.
#[derive(Clone, Copy)]
pub struct ConditionExample {
    pub name: &'static str,
    pub cell: &'static Cell,
    pub operator: u32,
    pub literal: Literal,
    pub width: u32,
    pub expected: Result<u32, Refusal>,
}
