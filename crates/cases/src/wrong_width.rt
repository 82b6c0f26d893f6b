// 8: the number of variables is 0 or over 64.
use crate::example::{Refused, StateExample};
use samples::build::*;
use words::fault::Refusal;

pub static SHORT: [Refused<&'static [u32]>; 5] = [
    // no variable
    Refused {
        name: "HEAD of 0 variables",
        words: &[HEAD | 0, PART | 1, TRUE],
        place: 0,
    },
    // one more than 64
    Refused {
        name: "HEAD of 65 variables",
        words: &[HEAD | 65, PART | 1, TRUE],
        place: 0,
    },
    // as many as a load can say
    Refused {
        name: "HEAD of the largest load",
        words: &[HEAD | LARGEST, PART | 1, TRUE],
        place: 0,
    },
    // the goal is absent as well, but the HEAD stands before the end
    Refused {
        name: "HEAD of 0 variables and no goal",
        words: &[HEAD],
        place: 0,
    },
    // the next word is of an unused kind, but the HEAD is the first faulty word
    Refused {
        name: "HEAD of 65 variables before an unused kind",
        words: &[HEAD | 65, UNUSED_0],
        place: 0,
    },
];

// States over a width.
pub static STATES: [StateExample; 9] = [
    // bit 0 is under the width
    StateExample {
        name: "state of width 1, all true",
        width: 1,
        bits: 1,
        expected: Ok(()),
    },
    // bits 0 to 62 are under the width
    StateExample {
        name: "state of width 63, all true",
        width: 63,
        bits: 0x7FFF_FFFF_FFFF_FFFF,
        expected: Ok(()),
    },
    // every bit is under the width
    StateExample {
        name: "state of width 64, all true",
        width: 64,
        bits: 0xFFFF_FFFF_FFFF_FFFF,
        expected: Ok(()),
    },
    // no width
    StateExample {
        name: "state of width 0",
        width: 0,
        bits: 0,
        expected: Err(Refusal::WrongWidth),
    },
    // too wide
    StateExample {
        name: "state of width 65",
        width: 65,
        bits: 0,
        expected: Err(Refusal::WrongWidth),
    },
    // too wide
    StateExample {
        name: "state of the largest width",
        width: 0xFFFF_FFFF,
        bits: 0,
        expected: Err(Refusal::WrongWidth),
    },
    // bit 1 is at the width
    StateExample {
        name: "state of width 1 with bit 1",
        width: 1,
        bits: 2,
        expected: Err(Refusal::WrongWidth),
    },
    // bit 63 is at the width
    StateExample {
        name: "state of width 63 with bit 63",
        width: 63,
        bits: 0x8000_0000_0000_0000,
        expected: Err(Refusal::WrongWidth),
    },
    // bit 40 is above the width
    StateExample {
        name: "state of width 3 with bit 40",
        width: 3,
        bits: 0x0000_0100_0000_0000,
        expected: Err(Refusal::WrongWidth),
    },
];
