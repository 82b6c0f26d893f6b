// A single state as a valuer: one world, whose values are 0 for false and 1 for true.
ghost use Rattle.std.specs.Prelude.{◌≡◌, ◌<◌, ◌≤◌, ◌==◌, Ok, Err};
ghost use Rattle.words.specs.Refusals.{bank_fault};
ghost use Rattle.valuing.specs.Meaning.{state_meaning};

use crate::valuer::Valuer;
use tasks::state::State;
use words::fault::{Fault, Refusal};

// The room of a single state, which no making takes from.
const ROOM: u32 = 65_536;

impl Valuer for State {
    ghost meaning = { λ s. state_meaning s.width s.bits };

    fn width(&self) -> u32 {
        State::width(self)
    }

    fn room(&self) -> u32 {
        ROOM
    }

    fn constant(&mut self, truth: bool) -> Result<u64, Fault> {
        Ok(truth as u64)
    }

    fn variable(&mut self, variable: u32) -> Result<u64, Fault> {
        if variable >= State::width(self) {
            return Err(Fault::bank(Refusal::VariableOutside));
        }
        Ok(self.is_true(variable) as u64)
    }

    fn not(&mut self, operand: u64) -> Result<u64, Fault> {
        Ok(!truth_of(operand)? as u64)
    }

    fn and(&mut self, first: u64, second: u64) -> Result<u64, Fault> {
        Ok((truth_of(first)? & truth_of(second)?) as u64)
    }

    fn or(&mut self, first: u64, second: u64) -> Result<u64, Fault> {
        Ok((truth_of(first)? | truth_of(second)?) as u64)
    }
}

// Whether a value of a single state is that of a true formula.
pub(crate) fn is_one(value: u64) -> bool
    ensures { result ≡ (value == 1) }
{
    value == 1
}

// The truth that a value stands for; refused if it is no value of a single state.
fn truth_of(value: u64) -> Result<bool, Fault>
    ensures { elim result [ Ok truth ↦ (value < 2) × (truth ≡ (value == 1)) | Err fault ↦ (2 ≤ value) × (fault ≡ bank_fault Refusal.UnknownFormula) ] }
{
    if value > 1 {
        return Err(Fault::bank(Refusal::UnknownFormula));
    }
    Ok(is_one(value))
}
