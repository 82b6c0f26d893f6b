// What is refused, by which layer, at which step and place.
ghost use Rattle.std.specs.Prelude.{◌≡◌, Some};
ghost use Rattle.words.specs.Refusals.{number, file_fault, task_fault, bank_fault, run_fault};
ghost use Rattle.words.specs.Texts.{refusal_text, layer_text, fault_text};

use std::error::Error;
use std::fmt;

// Why something is refused, with the number of each refusal.
#[derive(Clone, Copy, PartialEq, Eq, Debug)]
pub enum Refusal {
    LooseBytes = 1,
    WrongWord = 2,
    VariableOutside = 3,
    WrongOperand = 4,
    TooManyWaiting = 5,
    TooLong = 6,
    WordMissing = 7,
    WrongWidth = 8,
    NoSuchOperator = 9,
    PreconditionFalse = 10,
    SetAndCleared = 11,
    TooManyStanding = 12,
    BankFull = 13,
    UnknownFormula = 14,
    GoalMissed = 15,
    NothingToWithdraw = 16,
    OutputTooSmall = 17,
}

impl Refusal {
    // The number by which the refusal is told.
    pub fn number(self) -> u32
        ensures { result ≡ number self }
    {
        self as u32
    }
}

// What the refusal means, in words.
impl fmt::Display for Refusal {
    ghost output = { λ why. Some (refusal_text why) };

    fn fmt<W: fmt::Write>(&self, f: &mut fmt::Formatter<W>) -> fmt::Result {
        f.write_str(match self {
            Refusal::LooseBytes => "the number of bytes is not a multiple of 4",
            Refusal::WrongWord => "a word of this kind or with this load may not stand here",
            Refusal::VariableOutside => "the variable is not one of the task's",
            Refusal::WrongOperand =>
                "an operand is missing or of the wrong sort, or the part does not end with one value of its sort",
            Refusal::TooManyWaiting => "a 65th value would wait for a later word",
            Refusal::TooLong =>
                "a limit is passed: of words, of a part's length, of operators or of steps",
            Refusal::WordMissing => "words are missing",
            Refusal::WrongWidth => "the number of variables does not fit",
            Refusal::NoSuchOperator =>
                "the task has no operator with the number that the plan asks for",
            Refusal::PreconditionFalse => "the operator's precondition is false",
            Refusal::SetAndCleared => "the operator sets and clears one variable together",
            Refusal::TooManyStanding => "64 steps stand already",
            Refusal::BankFull => "the bank has too little room",
            Refusal::UnknownFormula => "the formula is not known",
            Refusal::GoalMissed => "the plan is done and the goal is false",
            Refusal::NothingToWithdraw => "no step stands that could be withdrawn",
            Refusal::OutputTooSmall => "the output has too few words",
        })
    }
}

// The part of the library that refuses.
#[derive(Clone, Copy, PartialEq, Eq, Debug)]
pub enum Layer {
    File,
    Task,
    Bank,
    Run,
}

// The layer's name.
impl fmt::Display for Layer {
    ghost output = { λ layer. Some (layer_text layer) };

    fn fmt<W: fmt::Write>(&self, f: &mut fmt::Formatter<W>) -> fmt::Result {
        f.write_str(match self {
            Layer::File => "file",
            Layer::Task => "task",
            Layer::Bank => "bank",
            Layer::Run => "run",
        })
    }
}

// A refusal: steps and places count from 0.
#[derive(Clone, Copy, PartialEq, Eq, Debug)]
pub struct Fault {
    pub layer: Layer,
    pub refusal: Refusal,
    pub step: u32,
    pub place: u32,
}

impl Fault {
    // A fault of the file layer, at a word of the file.
    pub fn file(refusal: Refusal, place: u32) -> Fault
        ensures { result ≡ file_fault refusal place }
    {
        Fault {
            layer: Layer::File,
            refusal,
            step: 0,
            place,
        }
    }

    // A fault of the task layer, at a word of the task. This and the one above stay two: a call then names its layer, and no
    // caller can give a step to a layer that has none.
    pub fn task(refusal: Refusal, place: u32) -> Fault
        ensures { result ≡ task_fault refusal place }
    {
        Fault {
            layer: Layer::Task,
            refusal,
            step: 0,
            place,
        }
    }

    // A fault of the bank layer, which has neither step nor place.
    pub fn bank(refusal: Refusal) -> Fault
        ensures { result ≡ bank_fault refusal }
    {
        Fault {
            layer: Layer::Bank,
            refusal,
            step: 0,
            place: 0,
        }
    }

    // A fault of the run layer, after so many steps.
    pub fn run(refusal: Refusal, step: u32, place: u32) -> Fault
        ensures { result ≡ run_fault refusal step place }
    {
        Fault {
            layer: Layer::Run,
            refusal,
            step,
            place,
        }
    }
}

// Layer, number, step and place.
impl fmt::Display for Fault {
    ghost output = { λ fault. Some (fault_text fault) };

    fn fmt<W: fmt::Write>(&self, f: &mut fmt::Formatter<W>) -> fmt::Result {
        write!(
            f,
            "{} {}, step {}, place {}",
            self.layer,
            self.refusal.number(),
            self.step,
            self.place
        )
    }
}

impl Error for Fault {}

#[cfg(test)]
mod tests {
    use super::*;
    use std::test::Fail;

    #[test]
    fn faults_are_told(rt: HostRuntime) -> Result<(), Fail> {
        let of_run = Fault::run(Refusal::PreconditionFalse, 1, 19).to_string(rt.alloc())?;
        assert!(rt; of_run.as_str() == "run 10, step 1, place 19");
        let of_file = Fault::file(Refusal::LooseBytes, 2).to_string(rt.alloc())?;
        assert!(rt; of_file.as_str() == "file 1, step 0, place 2");
        Ok(())
    }
}
