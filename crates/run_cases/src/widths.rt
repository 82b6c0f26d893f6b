// A run that is gone on with over another task than the one it was started on.
use crate::cells;
use crate::example::{Call, Reached, TwoTasks};
use words::fault::{Fault, Layer, Refusal};

pub static CALLS: [TwoTasks; 8] = [
    // one variable and three: the widths are unequal, and no step is made
    TwoTasks {
        name: "step over a wider task",
        own: &cells::TURNED,
        made: 0,
        other: &cells::SMALL,
        call: Call::Step(0),
        expected: Err(Fault {
            layer: Layer::Run,
            refusal: Refusal::WrongWidth,
            step: 0,
            place: 0,
        }),
    },
    // three variables and one, after two steps
    TwoTasks {
        name: "step over a narrower task",
        own: &cells::SMALL,
        made: 2,
        other: &cells::TURNED,
        call: Call::Step(0),
        expected: Err(Fault {
            layer: Layer::Run,
            refusal: Refusal::WrongWidth,
            step: 2,
            place: 0,
        }),
    },
    // the width comes before the operator's number
    TwoTasks {
        name: "step over a wider task that has no such operator",
        own: &cells::TURNED,
        made: 1,
        other: &cells::SMALL,
        call: Call::Step(9),
        expected: Err(Fault {
            layer: Layer::Run,
            refusal: Refusal::WrongWidth,
            step: 1,
            place: 0,
        }),
    },
    // the width comes before the number of steps
    TwoTasks {
        name: "4,097th step over a wider task",
        own: &cells::TURNED,
        made: 4_096,
        other: &cells::SMALL,
        call: Call::Step(0),
        expected: Err(Fault {
            layer: Layer::Run,
            refusal: Refusal::WrongWidth,
            step: 4_096,
            place: 0,
        }),
    },
    // unequal widths at the finish, whatever the goal: that of the other task would be false
    TwoTasks {
        name: "finish over a wider task",
        own: &cells::TURNED,
        made: 3,
        other: &cells::SMALL,
        call: Call::Finish,
        expected: Err(Fault {
            layer: Layer::Run,
            refusal: Refusal::WrongWidth,
            step: 3,
            place: 0,
        }),
    },
    // the goal of the other task would be true
    TwoTasks {
        name: "finish over a wider task with the goal TRUE",
        own: &cells::TURNED,
        made: 0,
        other: &cells::CLASHES,
        call: Call::Finish,
        expected: Err(Fault {
            layer: Layer::Run,
            refusal: Refusal::WrongWidth,
            step: 0,
            place: 0,
        }),
    },
    // three variables both: 0 is turned over twice, then operator 4 of the other task sets it, and the other goal is TRUE
    TwoTasks {
        name: "step over another task of the same width",
        own: &cells::SMALL,
        made: 2,
        other: &cells::CLASHES,
        call: Call::Step(4),
        expected: Ok(Reached {
            steps: 3,
            changes: 3,
            end: 0x1,
        }),
    },
    // the goal of the other task, a and b, is false; it is at 2
    TwoTasks {
        name: "finish over another task of the same width",
        own: &cells::COUNTER,
        made: 1,
        other: &cells::SEARCHED,
        call: Call::Finish,
        expected: Err(Fault {
            layer: Layer::Run,
            refusal: Refusal::GoalMissed,
            step: 1,
            place: 2,
        }),
    },
];
