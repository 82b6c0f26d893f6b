// What a step changes: the variables that it sets and those that it clears.
ghost use Rattle.std.specs.Prelude.{◌≡◌, ◌<◌, if◌then◌else◌, MatchOption, bit_and, bit_or};
ghost use Rattle.planning.specs.Changes.{mask_of, Smallest};
ghost use Rattle.planning.specs.Steps.{masked};

use crate::variables::{smallest, with_changes};

// The variables that become true and those that become false: bit v of a mask stands for variable v.
#[derive(Clone, Copy, PartialEq, Eq, Debug)]
pub struct Change {
    pub set: u64,
    pub clear: u64,
}

// The mask of one variable. A state has no variable from 64 on, and its mask is empty.
fn mask(variable: u32) -> u64
    ensures { result ≡ mask_of variable }
{
    if variable < 64 { 1u64 << variable } else { 0 }
}

impl Change {
    // Nothing is set and nothing cleared.
    pub fn none() -> Change
        ensures { result ≡ record { set = 0; clear = 0 } }
    {
        Change { set: 0, clear: 0 }
    }

    // The variable is set.
    pub fn setting(variable: u32) -> Change
        ensures { result ≡ record { set = mask_of variable; clear = 0 } }
    {
        Change {
            set: mask(variable),
            clear: 0,
        }
    }

    // The variable is cleared.
    pub fn clearing(variable: u32) -> Change
        ensures { result ≡ record { set = 0; clear = mask_of variable } }
    {
        Change {
            set: 0,
            clear: mask(variable),
        }
    }

    // What either of two changes sets or clears.
    pub fn joined(self, other: Change) -> Change
        ensures { result ≡ record { set = bit_or self.set other.set; clear = bit_or self.clear other.clear } }
    {
        Change {
            set: self.set | other.set,
            clear: self.clear | other.clear,
        }
    }

    // The change under a condition: nothing if that is false.
    pub fn under(self, condition: bool) -> Change
        ensures { result ≡ (if condition then self else (record { set = 0; clear = 0 })) }
    {
        if condition { self } else { Change::none() }
    }

    // The smallest variable that is both set and cleared, if there is one.
    pub fn clash(self) -> Option<u32>
        ensures { MatchOption result (bit_and self.set self.clear ≡ 0) (λ v. (v < 64) × Smallest (bit_and self.set self.clear) v) }
    {
        smallest(self.set & self.clear)
    }

    // The variables that are true after the change, from those that are true before it.
    pub fn applied(self, bits: u64) -> u64
        ensures { result ≡ masked 64 bits self.set self.clear }
    {
        with_changes(bits, self.set, self.clear)
    }
}
