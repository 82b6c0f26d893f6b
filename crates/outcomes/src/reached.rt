// What steps and plans reach.
ghost use Rattle.std.specs.Prelude.{◌≡◌, nat_lt};

use tasks::state::State;

// The most steps of a run.
pub const MOST_STEPS: u32 = 4_096;

// An accepted step: the state that it leads to, and how many variables it changed.
#[derive(Clone, Copy)]
pub struct Stepped {
    pub state: State,
    pub changes: u32,
}

// An accepted plan: how many steps it has, how many changes of variables they make, and the state at its end.
#[derive(Clone, Copy)]
pub struct Accepted {
    pub steps: u32,
    pub changes: u32,
    pub end: State,
}

// Whether a run may make one more step after so many.
pub fn may_go_on(made: u32) -> bool
    ensures { result ≡ nat_lt made 4096 }
{
    made < MOST_STEPS
}
