// 5: a 65th value waits.
use crate::example::Refused;
use samples::build::*;

pub static LONG: [Refused<&'static [Run]>; 6] = [
    // the goal's first word is at 2, so the 65th is at 66; one value would be left at the end
    Refused {
        name: "65 formulas in a goal",
        words: &[
            Run {
                words: &[HEAD | 1, PART | 129],
                times: 1,
            },
            Run {
                words: &[TRUE],
                times: 65,
            },
            Run {
                words: &[AND],
                times: 64,
            },
        ],
        place: 66,
    },
    // the precondition's first word is at 4
    Refused {
        name: "65 formulas in a precondition",
        words: &[
            Run {
                words: &[HEAD | 64, PART | 1, TRUE, PART | 129],
                times: 1,
            },
            Run {
                words: &[VAR | 63],
                times: 65,
            },
            Run {
                words: &[OR],
                times: 64,
            },
            Run {
                words: &[PART | 1, NIL],
                times: 1,
            },
        ],
        place: 68,
    },
    // the effect's first word is at 6
    Refused {
        name: "65 effects",
        words: &[
            Run {
                words: &[HEAD | 1, PART | 1, TRUE, PART | 1, TRUE, PART | 129],
                times: 1,
            },
            Run {
                words: &[NIL],
                times: 65,
            },
            Run {
                words: &[BOTH],
                times: 64,
            },
        ],
        place: 70,
    },
    // formulas and effects of an effect's part wait together: 32 and 32, and the next effect is the 65th
    Refused {
        name: "65 formulas and effects",
        words: &[
            Run {
                words: &[HEAD | 1, PART | 1, TRUE, PART | 1, TRUE, PART | 66],
                times: 1,
            },
            Run {
                words: &[VAR | 0, SET | 0],
                times: 32,
            },
            Run {
                words: &[CLEAR | 0, WHEN],
                times: 1,
            },
        ],
        place: 70,
    },
    // 64 wait, AND leaves 63, and the second word behind it is the 65th again: 2 + 64 + 1 + 1
    Refused {
        name: "65 formulas after some were taken",
        words: &[
            Run {
                words: &[HEAD | 1, PART | 131],
                times: 1,
            },
            Run {
                words: &[TRUE],
                times: 64,
            },
            Run {
                words: &[AND, TRUE, TRUE],
                times: 1,
            },
            Run {
                words: &[AND],
                times: 64,
            },
        ],
        place: 68,
    },
    // the words behind the 65th are faulty, but later
    Refused {
        name: "65 formulas before an unused kind",
        words: &[
            Run {
                words: &[HEAD | 1, PART | 66],
                times: 1,
            },
            Run {
                words: &[FALSE],
                times: 65,
            },
            Run {
                words: &[UNUSED_0],
                times: 1,
            },
        ],
        place: 66,
    },
];
