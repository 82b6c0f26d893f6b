// A task over the caller's words: none is copied.
ghost use Rattle.std.specs.Prelude.{◌≡◌, ◌+◌, ◌<◌, ◌≤◌, true, length, Some, None, Ok, Err, count_ones, nat_lt};
ghost use Rattle.reading.specs.Faults.{is_accepted};
ghost use Rattle.words.specs.Refusals.{run_fault};
ghost use Rattle.planning.specs.Render.{formula_words};
ghost use Rattle.reading.specs.Trees.{built_in, task_tree};
ghost use Rattle.tasks.specs.Opening.{Accepts, Refuses};
ghost use Rattle.tasks.specs.Places.{goal_place, precondition_place};
ghost use Rattle.tasks.specs.Handed.{IsOperator};

use crate::opening::read_task;
use crate::part::{FormulaPart, Operator, Part};
use crate::reader::Reader;
use crate::state::State;
use std::marker::PhantomData;
use words::fault::{Fault, Refusal};
use words::kind::Kind;

// A task that is well formed for as long as it exists: its words render the one task `task_tree` of them.
// Contracts name that tree, and there is no `impl Model`: a struct with a lifetime and a model cannot be `Copy`.
#[derive(Clone, Copy)]
pub struct Task<'a> {
    words: &'a [u32],
    width: u32,
    initial: u64,
    operators: u32,
    ghost faultless: { is_accepted words.now ≡ true },
    ghost wide: { width ≡ (task_tree words.now).width },
    ghost begun: { initial ≡ (task_tree words.now).initial },
    ghost counted: { operators ≡ length (task_tree words.now).operators },
}

// HEAD 1; PART 1: TRUE.
const BUILT_IN: [u32; 3] = [
    (Kind::Head as u32) << 28 | 1,
    (Kind::Part as u32) << 28 | 1,
    (Kind::True as u32) << 28,
];

impl<'a> Task<'a> {
    // The built-in task: one variable, false at the start, goal TRUE and no operator.
    pub fn built_in() -> Task<'a>
        ensures { task_tree result.words.now ≡ built_in }
    {
        Task {
            words: &BUILT_IN,
            width: 1,
            initial: 0,
            operators: 0,
        }
    }

    // Makes this the task that the words render; where they render none, leaves it as it is and tells the first fault.
    // It fills a task that the caller holds, and no `Result` of a task, so that a refusal leaves the caller a well-formed one.
    pub fn open(&mut self, words: &'a [u32]) -> Result<(), Fault>
        ensures { elim result [ Ok _ ↦ Accepts words.now × (self.new.words.now ≡ words.now) | Err fault ↦ Refuses words.now fault × (self.new ≡ self.old) ] }
    {
        let read = read_task(words)?;
        *self = Task {
            words,
            width: read.width,
            initial: read.initial,
            operators: read.operators,
        };
        Ok(())
    }

    pub fn width(&self) -> u32
        ensures { result ≡ (task_tree self.now.words.now).width }
    {
        self.width
    }

    pub fn initial(&self) -> State
        ensures { (result.width ≡ (task_tree self.now.words.now).width) × (result.bits ≡ (task_tree self.now.words.now).initial) }
    {
        State {
            width: self.width,
            bits: self.initial,
        }
    }

    // How many operators there are.
    pub fn operators(&self) -> u32
        ensures { result ≡ length (task_tree self.now.words.now).operators }
    {
        self.operators
    }

    // The place of the goal's PART, behind the HEAD and one ON for each variable that is true at the start.
    fn goal_part(&self) -> usize
        ensures { result ≡ 1 + count_ones self.now.initial }
    {
        1 + self.initial.count_ones() as usize
    }

    // A cursor at the goal's PART.
    fn at_goal(&self) -> Reader<'a>
        ensures words { result.words.now ≡ self.now.words.now }
        ensures at { result.at + 1 ≡ goal_place (task_tree self.now.words.now) }
    {
        Reader::new(self.words, self.goal_part())
    }

    pub fn goal(&self) -> FormulaPart<'a>
        ensures words { result.words.now ≡ formula_words (task_tree self.now.words.now).goal }
        ensures place { result.place ≡ goal_place (task_tree self.now.words.now) }
        ensures width { result.width ≡ (task_tree self.now.words.now).width }
    {
        let mut reader = self.at_goal();
        let goal = reader.part();
        Part {
            words: goal.words,
            place: goal.place,
            width: self.width,
            holds: PhantomData,
        }
    }

    // A cursor at the PART of an operator's precondition, behind the operators before it.
    fn at_operator(&self, number: u32) -> Reader<'a>
        requires { number < length (task_tree self.now.words.now).operators }
        ensures words { result.words.now ≡ self.now.words.now }
        ensures at { result.at + 1 ≡ precondition_place (task_tree self.now.words.now) number }
    {
        let mut reader = self.at_goal();
        let _ = reader.part();
        for passed in 0..number {
            let _ = reader.part();
            let _ = reader.part();
        }
        reader
    }

    fn has_operator(&self, number: u32) -> bool
        ensures { result ≡ nat_lt number (length (task_tree self.now.words.now).operators) }
    {
        number < self.operators
    }

    // The operator of that number; refused where there is none.
    pub fn operator(&self, number: u32) -> Result<Operator<'a>, Fault>
        ensures { elim result [ Ok operator ↦ (number < length (task_tree self.now.words.now).operators) × IsOperator (task_tree self.now.words.now) number operator | Err fault ↦ (length (task_tree self.now.words.now).operators ≤ number) × (fault ≡ run_fault Refusal.NoSuchOperator 0 0) ] }
    {
        if !self.has_operator(number) {
            return Err(Fault::run(Refusal::NoSuchOperator, 0, 0));
        }
        let mut reader = self.at_operator(number);
        let first = reader.part();
        let second = reader.part();
        Ok(Operator {
            precondition: Part {
                words: first.words,
                place: first.place,
                width: self.width,
                holds: PhantomData,
            },
            effect: Part {
                words: second.words,
                place: second.place,
                width: self.width,
                holds: PhantomData,
            },
        })
    }
}
