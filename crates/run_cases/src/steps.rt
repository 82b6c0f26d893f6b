// Operators applied in states, and plans of several steps.
use crate::cells;
use crate::example::{PlanExample, Reached, StartedCell};
use words::fault::{Fault, Layer, Refusal};

pub static STEPS: [PlanExample<StartedCell, &'static [u32]>; 26] = [
    // a stays false, b becomes true
    PlanExample {
        name: "values: none true",
        task: StartedCell {
            cell: &cells::VALUES,
            start: 0,
        },
        plan: &[0],
        expected: Ok(Reached {
            steps: 1,
            changes: 1,
            end: 0x2,
        }),
    },
    // a stays true without c, b becomes true
    PlanExample {
        name: "values: a",
        task: StartedCell {
            cell: &cells::VALUES,
            start: 1,
        },
        plan: &[0],
        expected: Ok(Reached {
            steps: 1,
            changes: 1,
            end: 0x3,
        }),
    },
    // b makes a true
    PlanExample {
        name: "values: b",
        task: StartedCell {
            cell: &cells::VALUES,
            start: 2,
        },
        plan: &[0],
        expected: Ok(Reached {
            steps: 1,
            changes: 1,
            end: 0x3,
        }),
    },
    // c makes a false, b becomes true, c stays
    PlanExample {
        name: "values: a and c",
        task: StartedCell {
            cell: &cells::VALUES,
            start: 5,
        },
        plan: &[0],
        expected: Ok(Reached {
            steps: 1,
            changes: 2,
            end: 0x6,
        }),
    },
    // b becomes true and d false
    PlanExample {
        name: "values: a and d",
        task: StartedCell {
            cell: &cells::VALUES,
            start: 9,
        },
        plan: &[0],
        expected: Ok(Reached {
            steps: 1,
            changes: 2,
            end: 0x3,
        }),
    },
    // a and b are true already, d becomes false
    PlanExample {
        name: "values: a, b and d",
        task: StartedCell {
            cell: &cells::VALUES,
            start: 0xB,
        },
        plan: &[0],
        expected: Ok(Reached {
            steps: 1,
            changes: 1,
            end: 0x3,
        }),
    },
    // b makes a true and c makes it false: HEAD, two ON, goal and precondition with their PARTs and a PART come
    // before the effect: 8, plus variable 0
    PlanExample {
        name: "values: b and c",
        task: StartedCell {
            cell: &cells::VALUES,
            start: 6,
        },
        plan: &[0],
        expected: Err(Fault {
            layer: Layer::Run,
            refusal: Refusal::SetAndCleared,
            step: 0,
            place: 8,
        }),
    },
    // the same behind four ON
    PlanExample {
        name: "values: all true",
        task: StartedCell {
            cell: &cells::VALUES,
            start: 0xF,
        },
        plan: &[0],
        expected: Err(Fault {
            layer: Layer::Run,
            refusal: Refusal::SetAndCleared,
            step: 0,
            place: 10,
        }),
    },
    // to 7, with 1 + 2 + 1 + 3 + 1 + 2 + 1 changes
    PlanExample {
        name: "counter: seven steps",
        task: StartedCell {
            cell: &cells::COUNTER,
            start: 0,
        },
        plan: &[0, 0, 0, 0, 0, 0, 0],
        expected: Ok(Reached {
            steps: 7,
            changes: 11,
            end: 0x7,
        }),
    },
    // at 7 no condition is true, so the eighth step changes nothing
    PlanExample {
        name: "counter: eight steps",
        task: StartedCell {
            cell: &cells::COUNTER,
            start: 0,
        },
        plan: &[0, 0, 0, 0, 0, 0, 0, 0],
        expected: Ok(Reached {
            steps: 8,
            changes: 11,
            end: 0x7,
        }),
    },
    // to 4, and the goal, at 2, is false
    PlanExample {
        name: "counter: four steps",
        task: StartedCell {
            cell: &cells::COUNTER,
            start: 0,
        },
        plan: &[0, 0, 0, 0],
        expected: Err(Fault {
            layer: Layer::Run,
            refusal: Refusal::GoalMissed,
            step: 4,
            place: 2,
        }),
    },
    // only the lowest digit changes
    PlanExample {
        name: "counter: one step from 6",
        task: StartedCell {
            cell: &cells::COUNTER,
            start: 6,
        },
        plan: &[0],
        expected: Ok(Reached {
            steps: 1,
            changes: 1,
            end: 0x7,
        }),
    },
    // to 4 with three changes, then 5, 6 and 7 with 1 + 2 + 1
    PlanExample {
        name: "counter: four steps from 3",
        task: StartedCell {
            cell: &cells::COUNTER,
            start: 3,
        },
        plan: &[0, 0, 0, 0],
        expected: Ok(Reached {
            steps: 4,
            changes: 7,
            end: 0x7,
        }),
    },
    // b and e become true and d false
    PlanExample {
        name: "nested: a, c and d",
        task: StartedCell {
            cell: &cells::NESTED,
            start: 0xD,
        },
        plan: &[0],
        expected: Ok(Reached {
            steps: 1,
            changes: 3,
            end: 0x17,
        }),
    },
    // the same
    PlanExample {
        name: "not nested: a, c and d",
        task: StartedCell {
            cell: &cells::NESTED,
            start: 0xD,
        },
        plan: &[1],
        expected: Ok(Reached {
            steps: 1,
            changes: 3,
            end: 0x17,
        }),
    },
    // without c the inner effect does nothing, and b is true already
    PlanExample {
        name: "nested: a, b and d",
        task: StartedCell {
            cell: &cells::NESTED,
            start: 0xB,
        },
        plan: &[0],
        expected: Ok(Reached {
            steps: 1,
            changes: 0,
            end: 0xB,
        }),
    },
    // the same
    PlanExample {
        name: "not nested: a, b and d",
        task: StartedCell {
            cell: &cells::NESTED,
            start: 0xB,
        },
        plan: &[1],
        expected: Ok(Reached {
            steps: 1,
            changes: 0,
            end: 0xB,
        }),
    },
    // without a only e becomes true, since b is false
    PlanExample {
        name: "nested: d",
        task: StartedCell {
            cell: &cells::NESTED,
            start: 8,
        },
        plan: &[0],
        expected: Ok(Reached {
            steps: 1,
            changes: 1,
            end: 0x18,
        }),
    },
    // the same
    PlanExample {
        name: "not nested: d",
        task: StartedCell {
            cell: &cells::NESTED,
            start: 8,
        },
        plan: &[1],
        expected: Ok(Reached {
            steps: 1,
            changes: 1,
            end: 0x18,
        }),
    },
    // without a the inner condition does not count, and b is true
    PlanExample {
        name: "nested: b, c and d",
        task: StartedCell {
            cell: &cells::NESTED,
            start: 0xE,
        },
        plan: &[0],
        expected: Ok(Reached {
            steps: 1,
            changes: 0,
            end: 0xE,
        }),
    },
    // the same
    PlanExample {
        name: "not nested: b, c and d",
        task: StartedCell {
            cell: &cells::NESTED,
            start: 0xE,
        },
        plan: &[1],
        expected: Ok(Reached {
            steps: 1,
            changes: 0,
            end: 0xE,
        }),
    },
    // b becomes true, and e too: its condition is read before the step
    PlanExample {
        name: "nested: a",
        task: StartedCell {
            cell: &cells::NESTED,
            start: 1,
        },
        plan: &[0],
        expected: Ok(Reached {
            steps: 1,
            changes: 2,
            end: 0x13,
        }),
    },
    // the same
    PlanExample {
        name: "not nested: a",
        task: StartedCell {
            cell: &cells::NESTED,
            start: 1,
        },
        plan: &[1],
        expected: Ok(Reached {
            steps: 1,
            changes: 2,
            end: 0x13,
        }),
    },
    // both conditions are read before the step
    PlanExample {
        name: "swap: the first true",
        task: StartedCell {
            cell: &cells::SWAP,
            start: 1,
        },
        plan: &[0],
        expected: Ok(Reached {
            steps: 1,
            changes: 2,
            end: 0x2,
        }),
    },
    // both conditions are read before the step
    PlanExample {
        name: "swap: the second true",
        task: StartedCell {
            cell: &cells::SWAP,
            start: 2,
        },
        plan: &[0],
        expected: Ok(Reached {
            steps: 1,
            changes: 2,
            end: 0x1,
        }),
    },
    // each is set, and both are true already
    PlanExample {
        name: "swap: both true",
        task: StartedCell {
            cell: &cells::SWAP,
            start: 3,
        },
        plan: &[0],
        expected: Ok(Reached {
            steps: 1,
            changes: 0,
            end: 0x3,
        }),
    },
];

pub static BACKWARDS: [PlanExample<StartedCell, &'static [u32]>; 22] = [
    // b becomes true
    PlanExample {
        name: "a makes b: from a",
        task: StartedCell {
            cell: &cells::ONE,
            start: 1,
        },
        plan: &[0],
        expected: Ok(Reached {
            steps: 1,
            changes: 1,
            end: 0x3,
        }),
    },
    // a is false; the precondition is behind HEAD, ON, the goal with its PART and a PART: 5
    PlanExample {
        name: "a makes b: from b",
        task: StartedCell {
            cell: &cells::ONE,
            start: 2,
        },
        plan: &[0],
        expected: Err(Fault {
            layer: Layer::Run,
            refusal: Refusal::PreconditionFalse,
            step: 0,
            place: 5,
        }),
    },
    // c and d stay true
    PlanExample {
        name: "a makes b of b, c and d: from a, c and d",
        task: StartedCell {
            cell: &cells::THREE,
            start: 0xD,
        },
        plan: &[0],
        expected: Ok(Reached {
            steps: 1,
            changes: 1,
            end: 0xF,
        }),
    },
    // d stays false, and the goal is at 4, behind HEAD, two ON and its PART
    PlanExample {
        name: "a makes b of b, c and d: from a and c",
        task: StartedCell {
            cell: &cells::THREE,
            start: 5,
        },
        plan: &[0],
        expected: Err(Fault {
            layer: Layer::Run,
            refusal: Refusal::GoalMissed,
            step: 1,
            place: 4,
        }),
    },
    // b becomes true
    PlanExample {
        name: "b when c: from a and c",
        task: StartedCell {
            cell: &cells::UNDER_C,
            start: 5,
        },
        plan: &[0],
        expected: Ok(Reached {
            steps: 1,
            changes: 1,
            end: 0x7,
        }),
    },
    // b stays true
    PlanExample {
        name: "b when c: from a and b",
        task: StartedCell {
            cell: &cells::UNDER_C,
            start: 3,
        },
        plan: &[0],
        expected: Ok(Reached {
            steps: 1,
            changes: 0,
            end: 0x3,
        }),
    },
    // b stays false
    PlanExample {
        name: "b when c: from a",
        task: StartedCell {
            cell: &cells::UNDER_C,
            start: 1,
        },
        plan: &[0],
        expected: Err(Fault {
            layer: Layer::Run,
            refusal: Refusal::GoalMissed,
            step: 1,
            place: 3,
        }),
    },
    // the one state for which this reaches b: a, c, not b
    PlanExample {
        name: "b when c, not b when b: from a and c",
        task: StartedCell {
            cell: &cells::C_OR_B,
            start: 5,
        },
        plan: &[0],
        expected: Ok(Reached {
            steps: 1,
            changes: 1,
            end: 0x7,
        }),
    },
    // b is set and cleared: the effect is at 9, behind three ON, and b is 1
    PlanExample {
        name: "b when c, not b when b: from a, b and c",
        task: StartedCell {
            cell: &cells::C_OR_B,
            start: 7,
        },
        plan: &[0],
        expected: Err(Fault {
            layer: Layer::Run,
            refusal: Refusal::SetAndCleared,
            step: 0,
            place: 10,
        }),
    },
    // b becomes false
    PlanExample {
        name: "b when c, not b when b: from a and b",
        task: StartedCell {
            cell: &cells::C_OR_B,
            start: 3,
        },
        plan: &[0],
        expected: Err(Fault {
            layer: Layer::Run,
            refusal: Refusal::GoalMissed,
            step: 1,
            place: 4,
        }),
    },
    // a is false
    PlanExample {
        name: "b when c, not b when b: from c",
        task: StartedCell {
            cell: &cells::C_OR_B,
            start: 4,
        },
        plan: &[0],
        expected: Err(Fault {
            layer: Layer::Run,
            refusal: Refusal::PreconditionFalse,
            step: 0,
            place: 5,
        }),
    },
    // b stays false
    PlanExample {
        name: "b when c, not b when b: from a",
        task: StartedCell {
            cell: &cells::C_OR_B,
            start: 1,
        },
        plan: &[0],
        expected: Err(Fault {
            layer: Layer::Run,
            refusal: Refusal::GoalMissed,
            step: 1,
            place: 3,
        }),
    },
    // b stays true
    PlanExample {
        name: "b when c, not b when d: from a and b",
        task: StartedCell {
            cell: &cells::C_OR_D,
            start: 3,
        },
        plan: &[0],
        expected: Ok(Reached {
            steps: 1,
            changes: 0,
            end: 0x3,
        }),
    },
    // b becomes true
    PlanExample {
        name: "b when c, not b when d: from a and c",
        task: StartedCell {
            cell: &cells::C_OR_D,
            start: 5,
        },
        plan: &[0],
        expected: Ok(Reached {
            steps: 1,
            changes: 1,
            end: 0x7,
        }),
    },
    // b becomes false
    PlanExample {
        name: "b when c, not b when d: from a, b and d",
        task: StartedCell {
            cell: &cells::C_OR_D,
            start: 0xB,
        },
        plan: &[0],
        expected: Err(Fault {
            layer: Layer::Run,
            refusal: Refusal::GoalMissed,
            step: 1,
            place: 5,
        }),
    },
    // b is set and cleared: the effect is at 9, behind three ON, and b is 1
    PlanExample {
        name: "b when c, not b when d: from a, c and d",
        task: StartedCell {
            cell: &cells::C_OR_D,
            start: 0xD,
        },
        plan: &[0],
        expected: Err(Fault {
            layer: Layer::Run,
            refusal: Refusal::SetAndCleared,
            step: 0,
            place: 10,
        }),
    },
    // the same behind four ON, though b is true
    PlanExample {
        name: "b when c, not b when d: from all",
        task: StartedCell {
            cell: &cells::C_OR_D,
            start: 0xF,
        },
        plan: &[0],
        expected: Err(Fault {
            layer: Layer::Run,
            refusal: Refusal::SetAndCleared,
            step: 0,
            place: 11,
        }),
    },
    // p is false after the step, from whichever state
    PlanExample {
        name: "made false: from a and p",
        task: StartedCell {
            cell: &cells::UNDONE,
            start: 3,
        },
        plan: &[0],
        expected: Err(Fault {
            layer: Layer::Run,
            refusal: Refusal::GoalMissed,
            step: 1,
            place: 4,
        }),
    },
    // b becomes true, then a
    PlanExample {
        name: "searched: both operators",
        task: StartedCell {
            cell: &cells::SEARCHED,
            start: 0,
        },
        plan: &[0, 1],
        expected: Ok(Reached {
            steps: 2,
            changes: 2,
            end: 0x3,
        }),
    },
    // b is false; operator 0 takes the words 5 to 9, so the second precondition is at 11
    PlanExample {
        name: "searched: the second first",
        task: StartedCell {
            cell: &cells::SEARCHED,
            start: 0,
        },
        plan: &[1],
        expected: Err(Fault {
            layer: Layer::Run,
            refusal: Refusal::PreconditionFalse,
            step: 0,
            place: 11,
        }),
    },
    // a stays false; the goal is at 3, behind one ON
    PlanExample {
        name: "searched: with c",
        task: StartedCell {
            cell: &cells::SEARCHED,
            start: 4,
        },
        plan: &[0, 1],
        expected: Err(Fault {
            layer: Layer::Run,
            refusal: Refusal::GoalMissed,
            step: 2,
            place: 3,
        }),
    },
    // a is true after two steps
    PlanExample {
        name: "searched: the first again",
        task: StartedCell {
            cell: &cells::SEARCHED,
            start: 0,
        },
        plan: &[0, 1, 0],
        expected: Err(Fault {
            layer: Layer::Run,
            refusal: Refusal::PreconditionFalse,
            step: 2,
            place: 6,
        }),
    },
];

pub static BLOCKS: [PlanExample<StartedCell, &'static [u32]>; 9] = [
    // 3 + 4 + 3 changes; 1, 5, 6 and 8 are true: 2 + 32 + 64 + 256
    PlanExample {
        name: "stack: A down, B onto A, C onto B",
        task: StartedCell {
            cell: &cells::STACK,
            start: 0x95,
        },
        plan: &[0, 1, 2],
        expected: Ok(Reached {
            steps: 3,
            changes: 10,
            end: 0x162,
        }),
    },
    // C is not clear; operator 0 takes the words 9 to 18 and operator 1 the words 19 to 32
    PlanExample {
        name: "stack: C first",
        task: StartedCell {
            cell: &cells::STACK,
            start: 0x95,
        },
        plan: &[2],
        expected: Err(Fault {
            layer: Layer::Run,
            refusal: Refusal::PreconditionFalse,
            step: 0,
            place: 34,
        }),
    },
    // B is not clear
    PlanExample {
        name: "stack: B first",
        task: StartedCell {
            cell: &cells::STACK,
            start: 0x95,
        },
        plan: &[1],
        expected: Err(Fault {
            layer: Layer::Run,
            refusal: Refusal::PreconditionFalse,
            step: 0,
            place: 20,
        }),
    },
    // C is still not clear, since B is on it
    PlanExample {
        name: "stack: A down, then C",
        task: StartedCell {
            cell: &cells::STACK,
            start: 0x95,
        },
        plan: &[0, 2],
        expected: Err(Fault {
            layer: Layer::Run,
            refusal: Refusal::PreconditionFalse,
            step: 1,
            place: 34,
        }),
    },
    // A is no longer on B
    PlanExample {
        name: "stack: A down twice",
        task: StartedCell {
            cell: &cells::STACK,
            start: 0x95,
        },
        plan: &[0, 0],
        expected: Err(Fault {
            layer: Layer::Run,
            refusal: Refusal::PreconditionFalse,
            step: 1,
            place: 10,
        }),
    },
    // C is not on B; the goal is at 6, behind HEAD, four ON and its PART
    PlanExample {
        name: "stack: C left out",
        task: StartedCell {
            cell: &cells::STACK,
            start: 0x95,
        },
        plan: &[0, 1],
        expected: Err(Fault {
            layer: Layer::Run,
            refusal: Refusal::GoalMissed,
            step: 2,
            place: 6,
        }),
    },
    // nothing to do
    PlanExample {
        name: "table: both on the table",
        task: StartedCell {
            cell: &cells::TABLE,
            start: 0x3C,
        },
        plan: &[1, 0],
        expected: Ok(Reached {
            steps: 2,
            changes: 0,
            end: 0x3C,
        }),
    },
    // the second step puts A down: 2 and 5 become true, 0 false
    PlanExample {
        name: "table: A on B",
        task: StartedCell {
            cell: &cells::TABLE,
            start: 0x19,
        },
        plan: &[1, 0],
        expected: Ok(Reached {
            steps: 2,
            changes: 3,
            end: 0x3C,
        }),
    },
    // the first step puts B down: 3 and 4 become true, 1 false
    PlanExample {
        name: "table: B on A",
        task: StartedCell {
            cell: &cells::TABLE,
            start: 0x26,
        },
        plan: &[1, 0],
        expected: Ok(Reached {
            steps: 2,
            changes: 3,
            end: 0x3C,
        }),
    },
];

pub static EQUAL: [PlanExample<StartedCell, &'static [u32]>; 13] = [
    // a is true, so 2 and 3 become true
    PlanExample {
        name: "condition over two effects",
        task: StartedCell {
            cell: &cells::LAWS,
            start: 1,
        },
        plan: &[0],
        expected: Ok(Reached {
            steps: 1,
            changes: 2,
            end: 0xD,
        }),
    },
    // the same
    PlanExample {
        name: "two effects with a condition",
        task: StartedCell {
            cell: &cells::LAWS,
            start: 1,
        },
        plan: &[1],
        expected: Ok(Reached {
            steps: 1,
            changes: 2,
            end: 0xD,
        }),
    },
    // a is false
    PlanExample {
        name: "condition over two effects, false",
        task: StartedCell {
            cell: &cells::LAWS,
            start: 2,
        },
        plan: &[0],
        expected: Ok(Reached {
            steps: 1,
            changes: 0,
            end: 0x2,
        }),
    },
    // the same
    PlanExample {
        name: "two effects with a condition, false",
        task: StartedCell {
            cell: &cells::LAWS,
            start: 2,
        },
        plan: &[1],
        expected: Ok(Reached {
            steps: 1,
            changes: 0,
            end: 0x2,
        }),
    },
    // a and b are true
    PlanExample {
        name: "condition over a condition",
        task: StartedCell {
            cell: &cells::LAWS,
            start: 3,
        },
        plan: &[2],
        expected: Ok(Reached {
            steps: 1,
            changes: 1,
            end: 0x7,
        }),
    },
    // the same
    PlanExample {
        name: "two conditions joined by AND",
        task: StartedCell {
            cell: &cells::LAWS,
            start: 3,
        },
        plan: &[3],
        expected: Ok(Reached {
            steps: 1,
            changes: 1,
            end: 0x7,
        }),
    },
    // a is false
    PlanExample {
        name: "condition over a condition, the outer false",
        task: StartedCell {
            cell: &cells::LAWS,
            start: 2,
        },
        plan: &[2],
        expected: Ok(Reached {
            steps: 1,
            changes: 0,
            end: 0x2,
        }),
    },
    // b is false
    PlanExample {
        name: "condition over a condition, the inner false",
        task: StartedCell {
            cell: &cells::LAWS,
            start: 1,
        },
        plan: &[2],
        expected: Ok(Reached {
            steps: 1,
            changes: 0,
            end: 0x1,
        }),
    },
    // b is false
    PlanExample {
        name: "two conditions joined by AND, one false",
        task: StartedCell {
            cell: &cells::LAWS,
            start: 1,
        },
        plan: &[3],
        expected: Ok(Reached {
            steps: 1,
            changes: 0,
            end: 0x1,
        }),
    },
    // b is true
    PlanExample {
        name: "effect under two conditions",
        task: StartedCell {
            cell: &cells::LAWS,
            start: 2,
        },
        plan: &[4],
        expected: Ok(Reached {
            steps: 1,
            changes: 1,
            end: 0x6,
        }),
    },
    // the same
    PlanExample {
        name: "two conditions joined by OR",
        task: StartedCell {
            cell: &cells::LAWS,
            start: 2,
        },
        plan: &[5],
        expected: Ok(Reached {
            steps: 1,
            changes: 1,
            end: 0x6,
        }),
    },
    // a is false, but the effect stands alone as well
    PlanExample {
        name: "effect and the same under a condition",
        task: StartedCell {
            cell: &cells::LAWS,
            start: 0,
        },
        plan: &[6],
        expected: Ok(Reached {
            steps: 1,
            changes: 1,
            end: 0x4,
        }),
    },
    // the same
    PlanExample {
        name: "effect alone",
        task: StartedCell {
            cell: &cells::LAWS,
            start: 0,
        },
        plan: &[7],
        expected: Ok(Reached {
            steps: 1,
            changes: 1,
            end: 0x4,
        }),
    },
];
