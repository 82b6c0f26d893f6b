// What opening a task gives.
ghost use Rattle.std.specs.Prelude.{◌≡◌};
ghost use Rattle.cases.specs.Texts.{difference_text};

use crate::example::{Opened, OperatorAt, PartAt};
use samples::build::TRUE;
use samples::cell::CELL;
use std::fmt;
use tasks::task::Task;
use words::fault::{Fault, Refusal};

// Why words are not opened over the built-in task and over one that is open already.
#[derive(Clone, Copy, PartialEq)]
pub enum NotOpened {
    Refused(Fault),
    // refused, and the task is no longer what it was
    Altered(Fault),
    // other answers over the one task than over the other
    Unequal,
}

impl fmt::Display for NotOpened {
    fn fmt<W: fmt::Write>(&self, f: &mut fmt::Formatter<W>) -> fmt::Result {
        match self {
            NotOpened::Refused(fault) => write!(f, "{fault}"),
            NotOpened::Altered(_) => f.write_str("refused, but the task is altered"),
            NotOpened::Unequal => f.write_str("other answers over another task"),
        }
    }
}

// Whether these are the words from the place on.
fn stands_at(part: &[u32], words: &[u32], place: u32) -> bool {
    words
        .get(place as usize..)
        .is_some_and(|rest| rest.starts_with(part))
}

// Whether a part has that place and length, and its words stand there.
fn is_at(part: &[u32], place: u32, words: &[u32], expected: PartAt) -> bool {
    place == expected.place
        && part.len() == expected.length as usize
        && stands_at(part, words, place)
}

// One variable, which is false, the goal TRUE and no operator.
fn is_built_in(task: Task<'_>) -> bool {
    let initial = task.initial();
    task.width() == 1
        && initial.width() == 1
        && initial.bits() == 0
        && task.operators() == 0
        && matches!(task.goal().words(), [TRUE])
}

// Whether the operator's parts are where they should be.
fn has_operator(task: Task<'_>, words: &[u32], expected: &OperatorAt) -> bool {
    let Ok(operator) = task.operator(expected.number) else {
        return false;
    };
    let precondition = operator.precondition();
    let effect = operator.effect();
    precondition.width() == task.width()
        && effect.width() == task.width()
        && is_at(
            precondition.words(),
            precondition.place(),
            words,
            expected.precondition,
        )
        && is_at(effect.words(), effect.place(), words, expected.effect)
}

// Whether the number is refused as that of no operator.
fn lacks_operator(task: Task<'_>, number: u32) -> bool {
    match task.operator(number) {
        Ok(_) => false,
        Err(fault) => fault == Fault::run(Refusal::NoSuchOperator, 0, 0),
    }
}

// The example cell, which is open when other words are refused.
fn is_cell(task: Task<'_>) -> bool {
    let goal = task.goal();
    let goal_at = PartAt {
        place: 3,
        length: 4,
    };
    let last = OperatorAt {
        number: 2,
        precondition: PartAt {
            place: 26,
            length: 1,
        },
        effect: PartAt {
            place: 28,
            length: 1,
        },
    };
    task.width() == 3
        && task.initial().width() == 3
        && task.initial().bits() == 2
        && task.operators() == 3
        && is_at(goal.words(), goal.place(), &CELL, goal_at)
        && has_operator(task, &CELL, &last)
}

// Opens the words over the built-in task and over the open one.
pub fn try_opening(words: &[u32]) -> Result<(), NotOpened> {
    let mut fresh = Task::built_in();
    let mut cell = Task::built_in();
    if cell.open(&CELL).is_err() || !is_cell(cell) {
        return Err(NotOpened::Unequal);
    }
    match (fresh.open(words), cell.open(words)) {
        (Ok(()), Ok(())) => Ok(()),
        (Err(fault), Err(again)) if fault == again => {
            if is_built_in(fresh) && is_cell(cell) {
                Err(NotOpened::Refused(fault))
            } else {
                Err(NotOpened::Altered(fault))
            }
        }
        _ => Err(NotOpened::Unequal),
    }
}

// What is other than expected when words are opened.
#[derive(Clone, Copy)]
pub enum Difference {
    BuiltIn,
    CellRefused,
    Refused,
    Width,
    Initial,
    Operators,
    Goal,
    Operator,
    OperatorBehind,
}

impl Difference {
    // The difference in words.
    pub fn text(self) -> &'static str
        ensures { result.now ≡ difference_text self }
    {
        match self {
            Difference::BuiltIn => "another built-in task",
            Difference::CellRefused => "the cell is refused",
            Difference::Refused => "refused",
            Difference::Width => "another width",
            Difference::Initial => "another initial state",
            Difference::Operators => "another number of operators",
            Difference::Goal => "another goal",
            Difference::Operator => "another operator",
            Difference::OperatorBehind => "an operator behind the last",
        }
    }
}

// That error, unless the fact holds.
fn check(fact: bool, otherwise: Difference) -> Result<(), Difference> {
    if fact { Ok(()) } else { Err(otherwise) }
}

// Compares an opened task with what is expected; an error is what is other. Words and what is expected stay two parameters, here and
// above: what is expected has another type in each function.
fn compare(task: Task<'_>, words: &[u32], expected: &Opened) -> Result<(), Difference> {
    let initial = task.initial();
    let goal = task.goal();
    check(task.width() == expected.width, Difference::Width)?;
    check(
        initial.width() == expected.width && initial.bits() == expected.initial,
        Difference::Initial,
    )?;
    check(
        task.operators() == expected.operators,
        Difference::Operators,
    )?;
    check(
        goal.width() == expected.width && is_at(goal.words(), goal.place(), words, expected.goal),
        Difference::Goal,
    )?;
    for operator in expected.parts {
        check(has_operator(task, words, operator), Difference::Operator)?;
    }
    check(
        lacks_operator(task, expected.operators) && lacks_operator(task, u32::MAX),
        Difference::OperatorBehind,
    )
}

// Opens the words and compares the task; an error is what is other than expected.
pub fn open_and_compare(words: &[u32], expected: &Opened) -> Result<(), Difference> {
    let mut task = Task::built_in();
    check(is_built_in(task), Difference::BuiltIn)?;
    task.open(&CELL).or(Err(Difference::CellRefused))?;
    task.open(words).or(Err(Difference::Refused))?;
    compare(task, words, expected)
}
