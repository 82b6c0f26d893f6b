// 2: a kind that is unused or out of turn, or of effects in a formula's part; a load that should be 0; an ON that does not rise.
use crate::example::Refused;
use samples::build::*;

// Kinds that are unused.
pub static UNUSED: [Refused<&'static [u32]>; 6] = [
    // no word has kind 0
    Refused {
        name: "unused kind 0 as the first word",
        words: &[UNUSED_0, PART | 1, TRUE],
        place: 0,
    },
    // no word has kind 15
    Refused {
        name: "unused kind 15 as the first word",
        words: &[UNUSED_15 | 1, PART | 1, TRUE],
        place: 0,
    },
    // in place of the goal's PART
    Refused {
        name: "unused kind 15 where the goal begins",
        words: &[HEAD | 1, UNUSED_15 | 1, TRUE],
        place: 1,
    },
    // no formula waits at the last word either (4), and 2 is the smaller number
    Refused {
        name: "unused kind 0 in a goal",
        words: &[HEAD | 1, PART | 1, UNUSED_0],
        place: 2,
    },
    // in place of a precondition's PART
    Refused {
        name: "unused kind 0 where an operator begins",
        words: &[HEAD | 1, PART | 1, TRUE, UNUSED_0],
        place: 3,
    },
    // no word has kind 15, in no part either
    Refused {
        name: "unused kind 15 in an effect",
        words: &[
            HEAD | 1,
            PART | 1,
            TRUE,
            PART | 1,
            TRUE,
            PART | 1,
            UNUSED_15,
        ],
        place: 6,
    },
];

// Kinds out of their turn.
pub static OUT_OF_TURN: [Refused<&'static [u32]>; 17] = [
    // the first word has to be a HEAD
    Refused {
        name: "ON as the first word",
        words: &[ON | 0, PART | 1, TRUE],
        place: 0,
    },
    // the first word has to be a HEAD
    Refused {
        name: "PART as the first word",
        words: &[PART | 1, TRUE],
        place: 0,
    },
    // a length of 0 is 6, and 2 is the smaller number
    Refused {
        name: "PART of no words as the first word",
        words: &[PART | 0],
        place: 0,
    },
    // the first word has to be a HEAD
    Refused {
        name: "TRUE as the first word",
        words: &[TRUE],
        place: 0,
    },
    // behind the HEAD come ON words and the goal's PART
    Refused {
        name: "second HEAD",
        words: &[HEAD | 1, HEAD | 1, PART | 1, TRUE],
        place: 1,
    },
    // a load of 65 is 8, and 2 is the smaller number
    Refused {
        name: "second HEAD, of 65 variables",
        words: &[HEAD | 1, HEAD | 65, PART | 1, TRUE],
        place: 1,
    },
    // behind the HEAD come ON words and the goal's PART
    Refused {
        name: "TRUE in place of the goal's PART",
        words: &[HEAD | 1, TRUE],
        place: 1,
    },
    // behind the goal comes a precondition's PART
    Refused {
        name: "HEAD behind the goal",
        words: &[HEAD | 1, PART | 1, TRUE, HEAD | 1, PART | 1, TRUE],
        place: 3,
    },
    // ON words stand before the goal
    Refused {
        name: "ON behind the goal",
        words: &[HEAD | 1, PART | 1, TRUE, ON | 0],
        place: 3,
    },
    // behind the goal comes a precondition's PART
    Refused {
        name: "TRUE in place of a precondition's PART",
        words: &[HEAD | 1, PART | 1, TRUE, TRUE],
        place: 3,
    },
    // behind a precondition comes its effect's PART
    Refused {
        name: "ON in place of an effect's PART",
        words: &[
            HEAD | 1,
            PART | 1,
            TRUE,
            PART | 1,
            TRUE,
            ON | 0,
            PART | 1,
            NIL,
        ],
        place: 5,
    },
    // behind a precondition comes its effect's PART
    Refused {
        name: "NIL in place of an effect's PART",
        words: &[HEAD | 1, PART | 1, TRUE, PART | 1, TRUE, NIL],
        place: 5,
    },
    // a load of 0 is 8, and 2 is the smaller number
    Refused {
        name: "HEAD inside a part",
        words: &[HEAD | 1, PART | 1, HEAD | 0],
        place: 2,
    },
    // variable 9 is outside (3), and 2 is the smaller number
    Refused {
        name: "ON inside a part",
        words: &[HEAD | 1, PART | 1, ON | 9],
        place: 2,
    },
    // a PART's words hold no PART
    Refused {
        name: "PART inside a part",
        words: &[HEAD | 1, PART | 2, PART | 1, TRUE],
        place: 2,
    },
    // a length of 0 is 6, and 2 is the smaller number
    Refused {
        name: "PART of no words inside a part",
        words: &[HEAD | 1, PART | 2, TRUE, PART | 0],
        place: 3,
    },
    // nine words are not there (7), and 2 is the smaller number
    Refused {
        name: "PART inside a part, past the end",
        words: &[HEAD | 1, PART | 2, TRUE, PART | 9],
        place: 3,
    },
];

// Words of effects in a formula's part, whatever their operands and variables.
pub static EFFECTS: [Refused<&'static [u32]>; 7] = [
    // a goal is a formula's part
    Refused {
        name: "NIL in a goal",
        words: &[HEAD | 1, PART | 1, NIL],
        place: 2,
    },
    // a goal is a formula's part
    Refused {
        name: "SET in a goal",
        words: &[HEAD | 1, PART | 1, SET | 0],
        place: 2,
    },
    // variable 1 is outside (3), and 2 is the smaller number
    Refused {
        name: "SET outside in a goal",
        words: &[HEAD | 1, PART | 1, SET | 1],
        place: 2,
    },
    // its operands are missing (4), and 2 is the smaller number
    Refused {
        name: "BOTH in a goal without operands",
        words: &[HEAD | 1, PART | 1, BOTH],
        place: 2,
    },
    // a precondition is a formula's part
    Refused {
        name: "CLEAR in a precondition",
        words: &[HEAD | 1, PART | 1, TRUE, PART | 1, CLEAR | 0, PART | 1, NIL],
        place: 4,
    },
    // a precondition is a formula's part; the missing effect (4) is the larger number
    Refused {
        name: "WHEN in a precondition",
        words: &[
            HEAD | 1,
            PART | 1,
            TRUE,
            PART | 2,
            TRUE,
            WHEN,
            PART | 1,
            NIL,
        ],
        place: 5,
    },
    // a whole effect in the second operator's precondition: the first of its words is refused
    Refused {
        name: "effect as a precondition",
        words: &[
            HEAD | 1,
            PART | 1,
            TRUE,
            PART | 1,
            TRUE,
            PART | 1,
            NIL,
            PART | 3,
            NIL,
            NIL,
            BOTH,
            PART | 1,
            NIL,
        ],
        place: 8,
    },
];

// Loads that should be 0.
pub static LOADS: [Refused<&'static [u32]>; 11] = [
    // the load of TRUE is 0
    Refused {
        name: "TRUE with load 1",
        words: &[HEAD | 1, PART | 1, TRUE | 1],
        place: 2,
    },
    // the load of FALSE is 0
    Refused {
        name: "FALSE with the largest load",
        words: &[HEAD | 1, PART | 1, FALSE | LARGEST],
        place: 2,
    },
    // the load of NOT is 0
    Refused {
        name: "NOT with load 1",
        words: &[HEAD | 1, PART | 2, TRUE, NOT | 1],
        place: 3,
    },
    // the load of AND is 0
    Refused {
        name: "AND with load 1",
        words: &[HEAD | 1, PART | 3, TRUE, TRUE, AND | 1],
        place: 4,
    },
    // the load of OR is 0
    Refused {
        name: "OR with load 1",
        words: &[HEAD | 1, PART | 3, TRUE, TRUE, OR | 1],
        place: 4,
    },
    // the load of NIL is 0
    Refused {
        name: "NIL with load 1",
        words: &[HEAD | 1, PART | 1, TRUE, PART | 1, TRUE, PART | 1, NIL | 1],
        place: 6,
    },
    // the load of BOTH is 0
    Refused {
        name: "BOTH with load 1",
        words: &[
            HEAD | 1,
            PART | 1,
            TRUE,
            PART | 1,
            TRUE,
            PART | 3,
            NIL,
            NIL,
            BOTH | 1,
        ],
        place: 8,
    },
    // the load of WHEN is 0
    Refused {
        name: "WHEN with load 1",
        words: &[
            HEAD | 1,
            PART | 1,
            TRUE,
            PART | 1,
            TRUE,
            PART | 3,
            TRUE,
            NIL,
            WHEN | 1,
        ],
        place: 8,
    },
    // its operand is missing (4), and 2 is the smaller number
    Refused {
        name: "NOT with load 1 without an operand",
        words: &[HEAD | 1, PART | 1, NOT | 1],
        place: 2,
    },
    // two values are left (4), and 2 is the smaller number
    Refused {
        name: "TRUE with load 1 as a second value",
        words: &[HEAD | 1, PART | 2, TRUE, TRUE | 1],
        place: 3,
    },
    // a formula is left in an effect's part (4), and 2 is the smaller number
    Refused {
        name: "TRUE with load 1 as an effect",
        words: &[HEAD | 1, PART | 1, TRUE, PART | 1, TRUE, PART | 1, TRUE | 1],
        place: 6,
    },
];

// ON words that do not rise.
pub static NOT_RISING: [Refused<&'static [u32]>; 5] = [
    // equal is not rising
    Refused {
        name: "ON equal to the one before",
        words: &[HEAD | 4, ON | 1, ON | 1, PART | 1, TRUE],
        place: 2,
    },
    // 1 does not rise behind 3
    Refused {
        name: "ON lower than the one before",
        words: &[HEAD | 4, ON | 3, ON | 1, PART | 1, TRUE],
        place: 2,
    },
    // equal is not rising, at 0 either
    Refused {
        name: "ON 0 twice",
        words: &[HEAD | 1, ON | 0, ON | 0, PART | 1, TRUE],
        place: 2,
    },
    // the second rises, the third does not
    Refused {
        name: "third ON equal to the second",
        words: &[HEAD | 4, ON | 0, ON | 2, ON | 2, PART | 1, TRUE],
        place: 3,
    },
    // equal is not rising, though 63 is under the width
    Refused {
        name: "highest ON twice",
        words: &[HEAD | 64, ON | 63, ON | 63, PART | 1, TRUE],
        place: 2,
    },
];

pub static LONG: [Refused<&'static [Run]>; 7] = [
    // the 65th value (5), at the part's last word (4), of effects in a goal (2): 2 is the smallest
    Refused {
        name: "65th value as the last word, of a wrong kind",
        words: &[
            Run {
                words: &[HEAD | 1, PART | 65],
                times: 1,
            },
            Run {
                words: &[TRUE],
                times: 64,
            },
            Run {
                words: &[NIL],
                times: 1,
            },
        ],
        place: 66,
    },
    // the same, and its variable is outside (3)
    Refused {
        name: "65th value as the last word, of a wrong kind and outside",
        words: &[
            Run {
                words: &[HEAD | 1, PART | 65],
                times: 1,
            },
            Run {
                words: &[TRUE],
                times: 64,
            },
            Run {
                words: &[SET | 1],
                times: 1,
            },
        ],
        place: 66,
    },
    // the 65th value (5), at the part's last word (4), with a load (2): 2 is the smallest
    Refused {
        name: "65th value as the last word, with a load",
        words: &[
            Run {
                words: &[HEAD | 1, PART | 65],
                times: 1,
            },
            Run {
                words: &[TRUE],
                times: 64,
            },
            Run {
                words: &[TRUE | 1],
                times: 1,
            },
        ],
        place: 66,
    },
    // the 65th value (5), of effects in a goal (2), with more words of the part to come
    Refused {
        name: "65th value in the middle, of a wrong kind",
        words: &[
            Run {
                words: &[HEAD | 1, PART | 129],
                times: 1,
            },
            Run {
                words: &[TRUE],
                times: 64,
            },
            Run {
                words: &[NIL],
                times: 1,
            },
            Run {
                words: &[AND],
                times: 64,
            },
        ],
        place: 66,
    },
    // HEAD, goal and 512 operators of 4 words take 3 + 2,048 words; only a PART would begin a 513th operator
    Refused {
        name: "TRUE behind 512 operators",
        words: &[
            Run {
                words: &[HEAD | 1, PART | 1, TRUE],
                times: 1,
            },
            Run {
                words: &[PART | 1, TRUE, PART | 1, NIL],
                times: 512,
            },
            Run {
                words: &[TRUE],
                times: 1,
            },
        ],
        place: 2051,
    },
    // only a PART would begin a 513th operator
    Refused {
        name: "unused kind 0 behind 512 operators",
        words: &[
            Run {
                words: &[HEAD | 1, PART | 1, TRUE],
                times: 1,
            },
            Run {
                words: &[PART | 1, TRUE, PART | 1, NIL],
                times: 512,
            },
            Run {
                words: &[UNUSED_0],
                times: 1,
            },
        ],
        place: 2051,
    },
    // as many words as there may be, so the first faulty one decides
    Refused {
        name: "16,384 words of unused kind 0",
        words: &[Run {
            words: &[UNUSED_0],
            times: 16_384,
        }],
        place: 0,
    },
];
