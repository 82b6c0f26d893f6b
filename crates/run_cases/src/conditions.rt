// The conditions under which effects make literals true.
use crate::cells;
use crate::example::ConditionExample;
use valuing::making::Literal;
use words::fault::Refusal;

pub static CONDITIONS: [ConditionExample; 31] = [
    // neither makes a true: FALSE
    ConditionExample {
        name: "b and c, for a",
        cell: &cells::EFFECTS,
        operator: 0,
        literal: Literal::Is(0),
        width: 3,
        expected: Ok(0x0),
    },
    // a is made true in any case: TRUE
    ConditionExample {
        name: "a and (b when-then a), for a",
        cell: &cells::EFFECTS,
        operator: 1,
        literal: Literal::Is(0),
        width: 3,
        expected: Ok(0xFF),
    },
    // c or b: all states but 0 and 1
    ConditionExample {
        name: "(c when-then a) and (b when-then a), for a",
        cell: &cells::EFFECTS,
        operator: 2,
        literal: Literal::Is(0),
        width: 3,
        expected: Ok(0xFC),
    },
    // b: the states with bit 1
    ConditionExample {
        name: "values, for a",
        cell: &cells::VALUES,
        operator: 0,
        literal: Literal::Is(0),
        width: 4,
        expected: Ok(0xCCCC),
    },
    // c: the states with bit 2
    ConditionExample {
        name: "values, for not a",
        cell: &cells::VALUES,
        operator: 0,
        literal: Literal::IsNot(0),
        width: 4,
        expected: Ok(0xF0F0),
    },
    // TRUE
    ConditionExample {
        name: "values, for b",
        cell: &cells::VALUES,
        operator: 0,
        literal: Literal::Is(1),
        width: 4,
        expected: Ok(0xFFFF),
    },
    // FALSE
    ConditionExample {
        name: "values, for not b",
        cell: &cells::VALUES,
        operator: 0,
        literal: Literal::IsNot(1),
        width: 4,
        expected: Ok(0x0),
    },
    // c is not mentioned: FALSE
    ConditionExample {
        name: "values, for c",
        cell: &cells::VALUES,
        operator: 0,
        literal: Literal::Is(2),
        width: 4,
        expected: Ok(0x0),
    },
    // c is a condition alone: FALSE
    ConditionExample {
        name: "values, for not c",
        cell: &cells::VALUES,
        operator: 0,
        literal: Literal::IsNot(2),
        width: 4,
        expected: Ok(0x0),
    },
    // FALSE
    ConditionExample {
        name: "values, for d",
        cell: &cells::VALUES,
        operator: 0,
        literal: Literal::Is(3),
        width: 4,
        expected: Ok(0x0),
    },
    // TRUE
    ConditionExample {
        name: "values, for not d",
        cell: &cells::VALUES,
        operator: 0,
        literal: Literal::IsNot(3),
        width: 4,
        expected: Ok(0xFFFF),
    },
    // not 2, and 1 and 0: the state 3
    ConditionExample {
        name: "counter, for digit 2",
        cell: &cells::COUNTER,
        operator: 0,
        literal: Literal::Is(2),
        width: 3,
        expected: Ok(0x8),
    },
    // never: FALSE
    ConditionExample {
        name: "counter, for not digit 2",
        cell: &cells::COUNTER,
        operator: 0,
        literal: Literal::IsNot(2),
        width: 3,
        expected: Ok(0x0),
    },
    // not 1, and 0: the states 1 and 5
    ConditionExample {
        name: "counter, for digit 1",
        cell: &cells::COUNTER,
        operator: 0,
        literal: Literal::Is(1),
        width: 3,
        expected: Ok(0x22),
    },
    // not 2, and 1 and 0: the state 3
    ConditionExample {
        name: "counter, for not digit 1",
        cell: &cells::COUNTER,
        operator: 0,
        literal: Literal::IsNot(1),
        width: 3,
        expected: Ok(0x8),
    },
    // not 0: the even states
    ConditionExample {
        name: "counter, for digit 0",
        cell: &cells::COUNTER,
        operator: 0,
        literal: Literal::Is(0),
        width: 3,
        expected: Ok(0x55),
    },
    // 0, and not both 1 and 2: the states 1, 3 and 5
    ConditionExample {
        name: "counter, for not digit 0",
        cell: &cells::COUNTER,
        operator: 0,
        literal: Literal::IsNot(0),
        width: 3,
        expected: Ok(0x2A),
    },
    // a: the odd states
    ConditionExample {
        name: "nested, for b",
        cell: &cells::NESTED,
        operator: 0,
        literal: Literal::Is(1),
        width: 5,
        expected: Ok(0xAAAA_AAAA),
    },
    // a and c: of each eight states the numbers 5 and 7
    ConditionExample {
        name: "nested, for not d",
        cell: &cells::NESTED,
        operator: 0,
        literal: Literal::IsNot(3),
        width: 5,
        expected: Ok(0xA0A0_A0A0),
    },
    // not b, or a and c: of each eight states 0, 1, 4, 5 and 7
    ConditionExample {
        name: "nested, for e",
        cell: &cells::NESTED,
        operator: 0,
        literal: Literal::Is(4),
        width: 5,
        expected: Ok(0xB3B3_B3B3),
    },
    // the same
    ConditionExample {
        name: "not nested, for e",
        cell: &cells::NESTED,
        operator: 1,
        literal: Literal::Is(4),
        width: 5,
        expected: Ok(0xB3B3_B3B3),
    },
    // d is only made false: FALSE
    ConditionExample {
        name: "nested, for d",
        cell: &cells::NESTED,
        operator: 0,
        literal: Literal::Is(3),
        width: 5,
        expected: Ok(0x0),
    },
    // a and b: of each four states 3
    ConditionExample {
        name: "condition over a condition, for 2",
        cell: &cells::LAWS,
        operator: 2,
        literal: Literal::Is(2),
        width: 4,
        expected: Ok(0x8888),
    },
    // the same
    ConditionExample {
        name: "two conditions joined by AND, for 2",
        cell: &cells::LAWS,
        operator: 3,
        literal: Literal::Is(2),
        width: 4,
        expected: Ok(0x8888),
    },
    // a or b: of each four states all but 0
    ConditionExample {
        name: "effect under two conditions, for 2",
        cell: &cells::LAWS,
        operator: 4,
        literal: Literal::Is(2),
        width: 4,
        expected: Ok(0xEEEE),
    },
    // TRUE
    ConditionExample {
        name: "effect and the same under a condition, for 2",
        cell: &cells::LAWS,
        operator: 6,
        literal: Literal::Is(2),
        width: 4,
        expected: Ok(0xFFFF),
    },
    // TRUE
    ConditionExample {
        name: "set and cleared, for 0",
        cell: &cells::CLASHES,
        operator: 0,
        literal: Literal::Is(0),
        width: 3,
        expected: Ok(0xFF),
    },
    // TRUE as well
    ConditionExample {
        name: "set and cleared, for not 0",
        cell: &cells::CLASHES,
        operator: 0,
        literal: Literal::IsNot(0),
        width: 3,
        expected: Ok(0xFF),
    },
    // FALSE
    ConditionExample {
        name: "NIL, for 0",
        cell: &cells::TURNED,
        operator: 1,
        literal: Literal::Is(0),
        width: 1,
        expected: Ok(0x0),
    },
    // no atomic effect makes it true: FALSE
    ConditionExample {
        name: "values, for a variable that the task has not",
        cell: &cells::VALUES,
        operator: 0,
        literal: Literal::Is(9),
        width: 4,
        expected: Ok(0x0),
    },
    // the widths are unequal
    ConditionExample {
        name: "values, for a in a state of another width",
        cell: &cells::VALUES,
        operator: 0,
        literal: Literal::Is(0),
        width: 3,
        expected: Err(Refusal::WrongWidth),
    },
];
