// 3: a variable is not under the width.
use crate::example::Refused;
use samples::build::*;

pub static SHORT: [Refused<&'static [u32]>; 15] = [
    // the one variable is 0
    Refused {
        name: "VAR 1 of one variable",
        words: &[HEAD | 1, PART | 1, VAR | 1],
        place: 2,
    },
    // the last variable is 63
    Refused {
        name: "VAR 64 of 64 variables",
        words: &[HEAD | 64, PART | 1, VAR | 64],
        place: 2,
    },
    // far outside
    Refused {
        name: "VAR of the largest load",
        words: &[HEAD | 64, PART | 1, VAR | LARGEST],
        place: 2,
    },
    // the variables are 0 to 2
    Refused {
        name: "VAR outside in a precondition",
        words: &[HEAD | 3, PART | 1, TRUE, PART | 1, VAR | 3, PART | 1, NIL],
        place: 4,
    },
    // formula words in an effect's part are over the same variables
    Refused {
        name: "VAR outside in the condition of an effect",
        words: &[
            HEAD | 1,
            PART | 1,
            TRUE,
            PART | 1,
            TRUE,
            PART | 3,
            VAR | 1,
            SET | 0,
            WHEN,
        ],
        place: 6,
    },
    // the variables are 0 and 1
    Refused {
        name: "SET outside",
        words: &[HEAD | 2, PART | 1, TRUE, PART | 1, TRUE, PART | 1, SET | 2],
        place: 6,
    },
    // the variables are 0 and 1
    Refused {
        name: "CLEAR outside",
        words: &[
            HEAD | 2,
            PART | 1,
            TRUE,
            PART | 1,
            TRUE,
            PART | 1,
            CLEAR | 2,
        ],
        place: 6,
    },
    // the first SET is under the width, the second is not
    Refused {
        name: "SET outside behind one inside",
        words: &[
            HEAD | 2,
            PART | 1,
            TRUE,
            PART | 1,
            TRUE,
            PART | 3,
            SET | 1,
            SET | 2,
            BOTH,
        ],
        place: 7,
    },
    // the one variable is 0
    Refused {
        name: "ON 1 of one variable",
        words: &[HEAD | 1, ON | 1, PART | 1, TRUE],
        place: 1,
    },
    // the last variable is 63
    Refused {
        name: "ON 64 of 64 variables",
        words: &[HEAD | 64, ON | 64, PART | 1, TRUE],
        place: 1,
    },
    // it rises, and is outside
    Refused {
        name: "ON outside that rises",
        words: &[HEAD | 4, ON | 3, ON | 4, PART | 1, TRUE],
        place: 2,
    },
    // the second does not rise, but the first is the first faulty word
    Refused {
        name: "ON outside twice",
        words: &[HEAD | 4, ON | 5, ON | 5, PART | 1, TRUE],
        place: 1,
    },
    // two values are left as well (4), and 3 is the smaller number
    Refused {
        name: "VAR outside as a second value",
        words: &[HEAD | 1, PART | 2, TRUE, VAR | 1],
        place: 3,
    },
    // a formula is left at an effect's end as well (4), and 3 is the smaller number
    Refused {
        name: "VAR outside left over in an effect",
        words: &[HEAD | 1, PART | 1, TRUE, PART | 1, TRUE, PART | 1, VAR | 1],
        place: 6,
    },
    // what is read later has a smaller number: the kind of the last word
    Refused {
        name: "VAR outside before an unused kind",
        words: &[HEAD | 1, PART | 2, VAR | 1, UNUSED_15],
        place: 2,
    },
];

pub static LONG: [Refused<&'static [Run]>; 3] = [
    // the 65th value (5), at the part's last word (4), outside (3): 3 is the smallest
    Refused {
        name: "65th value as the last word, outside",
        words: &[
            Run {
                words: &[HEAD | 1, PART | 65],
                times: 1,
            },
            Run {
                words: &[TRUE],
                times: 64,
            },
            Run {
                words: &[VAR | 1],
                times: 1,
            },
        ],
        place: 66,
    },
    // the 65th value (5), outside (3), with more words of the part to come
    Refused {
        name: "65th value in the middle, outside",
        words: &[
            Run {
                words: &[HEAD | 1, PART | 129],
                times: 1,
            },
            Run {
                words: &[TRUE],
                times: 64,
            },
            Run {
                words: &[VAR | 1],
                times: 1,
            },
            Run {
                words: &[AND],
                times: 64,
            },
        ],
        place: 66,
    },
    // the same of effects: the first word of the effect is at 6, the 65th at 70
    Refused {
        name: "65th effect as the last word, outside",
        words: &[
            Run {
                words: &[HEAD | 1, PART | 1, TRUE, PART | 1, TRUE, PART | 65],
                times: 1,
            },
            Run {
                words: &[SET | 0],
                times: 64,
            },
            Run {
                words: &[CLEAR | 1],
                times: 1,
            },
        ],
        place: 70,
    },
];
