// A state of a task: which of its variables are true.
ghost use Rattle.std.specs.Prelude.{◌≡◌, ◌^◌, ◌<◌, ◌≤◌, Some, None, Ok, Err};
ghost use Rattle.planning.specs.Tree.{bit};
ghost use Rattle.tasks.specs.States.{state_refusal};

use words::fault::{Fault, Refusal};

// A width of 1 to 64 variables, and a number whose bit v is variable v; no bit at or above the width.
#[derive(Clone, Copy)]
pub struct State {
    pub(crate) width: u32,
    pub(crate) bits: u64,
    ghost some: { 1 ≤ width },
    ghost narrow: { width ≤ 64 },
    ghost within: { bits < 2 ^ width },
}

impl State {
    // The state of that width and number; refused where the width is not 1 to 64, or a bit at or above it is set.
    pub fn new(width: u32, bits: u64) -> Result<State, Fault>
        ensures { elim result [ Ok made ↦ (state_refusal width bits ≡ None) × (made.width ≡ width) × (made.bits ≡ bits) | Err fault ↦ state_refusal width bits ≡ Some fault ] }
    {
        if width < 1 || 64 < width {
            return Err(Fault::bank(Refusal::WrongWidth));
        }
        if width < 64 && 0 < bits >> width {
            return Err(Fault::bank(Refusal::WrongWidth));
        }
        Ok(State { width, bits })
    }

    pub fn width(&self) -> u32
        ensures { result ≡ self.now.width }
    {
        self.width
    }

    pub fn bits(&self) -> u64
        ensures { result ≡ self.now.bits }
    {
        self.bits
    }

    // Whether the variable is true; none at or above the width is.
    pub fn is_true(&self, variable: u32) -> bool
        ensures { result ≡ bit self.now.bits variable }
    {
        variable < self.width && (self.bits >> variable) % 2 == 1
    }
}
