// Every refusal of a run, with its step and its place, and what is close to one and accepted.
use crate::cells;
use crate::example::{PlanExample, Reached, StartedCell};
use words::fault::{Fault, Layer, Refusal};

pub static SMALL_CELL: [PlanExample<StartedCell, &'static [u32]>; 5] = [
    // 1 becomes false, 0 true, 2 true, 0 false
    PlanExample {
        name: "cell: 2 0 1 0",
        task: StartedCell {
            cell: &cells::SMALL,
            start: 2,
        },
        plan: &[2, 0, 1, 0],
        expected: Ok(Reached {
            steps: 4,
            changes: 4,
            end: 0x4,
        }),
    },
    // after one step 1 is still true; the precondition of operator 1 is at 19
    PlanExample {
        name: "cell: 0 1 0",
        task: StartedCell {
            cell: &cells::SMALL,
            start: 2,
        },
        plan: &[0, 1, 0],
        expected: Err(Fault {
            layer: Layer::Run,
            refusal: Refusal::PreconditionFalse,
            step: 1,
            place: 19,
        }),
    },
    // 2 is false; the goal is at 3
    PlanExample {
        name: "cell: no step",
        task: StartedCell {
            cell: &cells::SMALL,
            start: 2,
        },
        plan: &[],
        expected: Err(Fault {
            layer: Layer::Run,
            refusal: Refusal::GoalMissed,
            step: 0,
            place: 3,
        }),
    },
    // 0 is still true
    PlanExample {
        name: "cell: 2 0 1",
        task: StartedCell {
            cell: &cells::SMALL,
            start: 2,
        },
        plan: &[2, 0, 1],
        expected: Err(Fault {
            layer: Layer::Run,
            refusal: Refusal::GoalMissed,
            step: 3,
            place: 3,
        }),
    },
    // 0 is false when operator 1 is applied, so 2 stays false
    PlanExample {
        name: "cell: 2 1 0 0",
        task: StartedCell {
            cell: &cells::SMALL,
            start: 2,
        },
        plan: &[2, 1, 0, 0],
        expected: Err(Fault {
            layer: Layer::Run,
            refusal: Refusal::GoalMissed,
            step: 4,
            place: 3,
        }),
    },
];

pub static NO_OPERATOR: [PlanExample<StartedCell, &'static [u32]>; 7] = [
    // the operators are 0 to 2; the place is 0
    PlanExample {
        name: "operator 3 of three",
        task: StartedCell {
            cell: &cells::SMALL,
            start: 2,
        },
        plan: &[3],
        expected: Err(Fault {
            layer: Layer::Run,
            refusal: Refusal::NoSuchOperator,
            step: 0,
            place: 0,
        }),
    },
    // one step is made
    PlanExample {
        name: "operator 3 of three after a step",
        task: StartedCell {
            cell: &cells::SMALL,
            start: 2,
        },
        plan: &[2, 3],
        expected: Err(Fault {
            layer: Layer::Run,
            refusal: Refusal::NoSuchOperator,
            step: 1,
            place: 0,
        }),
    },
    // all 32 bits are the number
    PlanExample {
        name: "the largest number",
        task: StartedCell {
            cell: &cells::SMALL,
            start: 2,
        },
        plan: &[u32::MAX],
        expected: Err(Fault {
            layer: Layer::Run,
            refusal: Refusal::NoSuchOperator,
            step: 0,
            place: 0,
        }),
    },
    // the task has no operator
    PlanExample {
        name: "operator 0 of none",
        task: StartedCell {
            cell: &cells::EMPTY,
            start: 0,
        },
        plan: &[0],
        expected: Err(Fault {
            layer: Layer::Run,
            refusal: Refusal::NoSuchOperator,
            step: 0,
            place: 0,
        }),
    },
    // a refused step is not finished
    PlanExample {
        name: "no such operator though the goal is true",
        task: StartedCell {
            cell: &cells::TURNED,
            start: 1,
        },
        plan: &[2],
        expected: Err(Fault {
            layer: Layer::Run,
            refusal: Refusal::NoSuchOperator,
            step: 0,
            place: 0,
        }),
    },
    // the goal is true at the start
    PlanExample {
        name: "no step of none",
        task: StartedCell {
            cell: &cells::EMPTY,
            start: 0,
        },
        plan: &[],
        expected: Ok(Reached {
            steps: 0,
            changes: 0,
            end: 0x0,
        }),
    },
    // FALSE or not 0 is false where 0 is true; the goal is at 3
    PlanExample {
        name: "no step of none, goal false",
        task: StartedCell {
            cell: &cells::EMPTY,
            start: 1,
        },
        plan: &[],
        expected: Err(Fault {
            layer: Layer::Run,
            refusal: Refusal::GoalMissed,
            step: 0,
            place: 3,
        }),
    },
];

pub static TOGETHER: [PlanExample<StartedCell, &'static [u32]>; 10] = [
    // SET 0 and CLEAR 0 fit no state; the effect is at 6, behind HEAD, goal and precondition with their PARTs and
    // a PART
    PlanExample {
        name: "set and cleared, from false",
        task: StartedCell {
            cell: &cells::CLASHES,
            start: 0,
        },
        plan: &[0],
        expected: Err(Fault {
            layer: Layer::Run,
            refusal: Refusal::SetAndCleared,
            step: 0,
            place: 6,
        }),
    },
    // the same behind an ON
    PlanExample {
        name: "set and cleared, from true",
        task: StartedCell {
            cell: &cells::CLASHES,
            start: 1,
        },
        plan: &[0],
        expected: Err(Fault {
            layer: Layer::Run,
            refusal: Refusal::SetAndCleared,
            step: 0,
            place: 7,
        }),
    },
    // the precondition comes first: operator 0 takes the words 3 to 8, so it is at 10
    PlanExample {
        name: "precondition false and set and cleared",
        task: StartedCell {
            cell: &cells::CLASHES,
            start: 0,
        },
        plan: &[1],
        expected: Err(Fault {
            layer: Layer::Run,
            refusal: Refusal::PreconditionFalse,
            step: 0,
            place: 10,
        }),
    },
    // the smaller of 1 and 2: operator 1 takes the words 9 to 14, so the effect is at 18
    PlanExample {
        name: "two variables set and cleared",
        task: StartedCell {
            cell: &cells::CLASHES,
            start: 0,
        },
        plan: &[2],
        expected: Err(Fault {
            layer: Layer::Run,
            refusal: Refusal::SetAndCleared,
            step: 0,
            place: 19,
        }),
    },
    // the condition is false, so neither is done
    PlanExample {
        name: "set and cleared under a condition, false",
        task: StartedCell {
            cell: &cells::CLASHES,
            start: 0,
        },
        plan: &[3],
        expected: Ok(Reached {
            steps: 1,
            changes: 0,
            end: 0x0,
        }),
    },
    // after operator 4 the condition is true: operator 2 takes the words 15 to 24, so the effect is at 28, plus
    // variable 1
    PlanExample {
        name: "set and cleared under a condition, true",
        task: StartedCell {
            cell: &cells::CLASHES,
            start: 0,
        },
        plan: &[3, 4, 3],
        expected: Err(Fault {
            layer: Layer::Run,
            refusal: Refusal::SetAndCleared,
            step: 2,
            place: 29,
        }),
    },
    // the effect is at 6, plus variable 63
    PlanExample {
        name: "last of 64 set and cleared",
        task: StartedCell {
            cell: &cells::WIDE,
            start: 0,
        },
        plan: &[0],
        expected: Err(Fault {
            layer: Layer::Run,
            refusal: Refusal::SetAndCleared,
            step: 0,
            place: 69,
        }),
    },
    // 63 becomes false, then true, and 62 false
    PlanExample {
        name: "last of 64 cleared and set in two steps",
        task: StartedCell {
            cell: &cells::WIDE,
            start: 0xFFFF_FFFF_FFFF_FFFF,
        },
        plan: &[1, 2],
        expected: Ok(Reached {
            steps: 2,
            changes: 3,
            end: 0xBFFF_FFFF_FFFF_FFFF,
        }),
    },
    // not 63 is false: HEAD, 64 ON and 2 words of the goal are 67, operator 0 has 6 and operator 1 has 4, and the
    // PART is at 77
    PlanExample {
        name: "last of 64 set while true",
        task: StartedCell {
            cell: &cells::WIDE,
            start: 0xFFFF_FFFF_FFFF_FFFF,
        },
        plan: &[2],
        expected: Err(Fault {
            layer: Layer::Run,
            refusal: Refusal::PreconditionFalse,
            step: 0,
            place: 78,
        }),
    },
    // the digits of the state, the highest first; 63 is false and 62 is true: 63 becomes true, 62 false
    PlanExample {
        name: "all sixteen digits",
        task: StartedCell {
            cell: &cells::WIDE,
            start: 0x7EDC_BA98_7654_3210,
        },
        plan: &[2],
        expected: Ok(Reached {
            steps: 1,
            changes: 2,
            end: 0xBEDC_BA98_7654_3210,
        }),
    },
];

pub static AT_FINISH: [PlanExample<StartedCell, &'static [u32]>; 4] = [
    // the goal is tested after the last step alone
    PlanExample {
        name: "goal true between the steps",
        task: StartedCell {
            cell: &cells::TURNED,
            start: 0,
        },
        plan: &[0, 0],
        expected: Err(Fault {
            layer: Layer::Run,
            refusal: Refusal::GoalMissed,
            step: 2,
            place: 2,
        }),
    },
    // the goal is tested after the last step alone
    PlanExample {
        name: "goal false between the steps",
        task: StartedCell {
            cell: &cells::TURNED,
            start: 1,
        },
        plan: &[0, 0],
        expected: Ok(Reached {
            steps: 2,
            changes: 2,
            end: 0x1,
        }),
    },
    // no change
    PlanExample {
        name: "step that does nothing",
        task: StartedCell {
            cell: &cells::TURNED,
            start: 1,
        },
        plan: &[1],
        expected: Ok(Reached {
            steps: 1,
            changes: 0,
            end: 0x1,
        }),
    },
    // setting a true variable is no change
    PlanExample {
        name: "variable set that is true",
        task: StartedCell {
            cell: &cells::CLASHES,
            start: 1,
        },
        plan: &[4],
        expected: Ok(Reached {
            steps: 1,
            changes: 0,
            end: 0x1,
        }),
    },
];
