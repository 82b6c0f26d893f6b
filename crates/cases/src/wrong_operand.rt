// 4: an operand is missing or of the wrong sort, or a part's last word leaves other than one value of its sort.
use crate::example::Refused;
use samples::build::*;

// Operands that are missing or of the wrong sort.
pub static OPERANDS: [Refused<&'static [u32]>; 17] = [
    // nothing waits
    Refused {
        name: "NOT without an operand",
        words: &[HEAD | 1, PART | 1, NOT],
        place: 2,
    },
    // nothing waits
    Refused {
        name: "OR without operands",
        words: &[HEAD | 1, PART | 1, OR],
        place: 2,
    },
    // AND takes two formulas
    Refused {
        name: "AND with one operand",
        words: &[HEAD | 1, PART | 2, TRUE, AND],
        place: 3,
    },
    // it is the first faulty word, though the part could still end with one value
    Refused {
        name: "NOT before its operand",
        words: &[HEAD | 1, PART | 2, NOT, TRUE],
        place: 2,
    },
    // what is outside (3) comes later
    Refused {
        name: "NOT without an operand before a VAR outside",
        words: &[HEAD | 1, PART | 2, NOT, VAR | 1],
        place: 2,
    },
    // the goal's value does not wait for a precondition's words
    Refused {
        name: "NOT over the goal's value",
        words: &[HEAD | 1, PART | 1, TRUE, PART | 1, NOT, PART | 1, NIL],
        place: 4,
    },
    // NOT takes a formula
    Refused {
        name: "NOT over an effect",
        words: &[HEAD | 1, PART | 1, TRUE, PART | 1, TRUE, PART | 2, NIL, NOT],
        place: 7,
    },
    // AND takes two formulas, and an effect waits last
    Refused {
        name: "AND over a formula and an effect",
        words: &[
            HEAD | 1,
            PART | 1,
            TRUE,
            PART | 1,
            TRUE,
            PART | 3,
            TRUE,
            NIL,
            AND,
        ],
        place: 8,
    },
    // OR takes two formulas, and an effect waits before the last
    Refused {
        name: "OR over an effect and a formula",
        words: &[
            HEAD | 1,
            PART | 1,
            TRUE,
            PART | 1,
            TRUE,
            PART | 3,
            NIL,
            TRUE,
            OR,
        ],
        place: 8,
    },
    // nothing waits
    Refused {
        name: "BOTH without operands",
        words: &[HEAD | 1, PART | 1, TRUE, PART | 1, TRUE, PART | 1, BOTH],
        place: 6,
    },
    // BOTH takes two effects
    Refused {
        name: "BOTH with one operand",
        words: &[
            HEAD | 1,
            PART | 1,
            TRUE,
            PART | 1,
            TRUE,
            PART | 2,
            NIL,
            BOTH,
        ],
        place: 7,
    },
    // BOTH takes two effects, and a formula waits before the last
    Refused {
        name: "BOTH over a formula and an effect",
        words: &[
            HEAD | 1,
            PART | 1,
            TRUE,
            PART | 1,
            TRUE,
            PART | 3,
            TRUE,
            NIL,
            BOTH,
        ],
        place: 8,
    },
    // BOTH takes two effects, and a formula waits last
    Refused {
        name: "BOTH over an effect and a formula",
        words: &[
            HEAD | 1,
            PART | 1,
            TRUE,
            PART | 1,
            TRUE,
            PART | 3,
            NIL,
            TRUE,
            BOTH,
        ],
        place: 8,
    },
    // WHEN takes a formula and an effect, and only the effect waits
    Refused {
        name: "WHEN without a formula",
        words: &[
            HEAD | 1,
            PART | 1,
            TRUE,
            PART | 1,
            TRUE,
            PART | 2,
            NIL,
            WHEN,
        ],
        place: 7,
    },
    // WHEN takes an effect last, and a formula waits there
    Refused {
        name: "WHEN without an effect",
        words: &[
            HEAD | 1,
            PART | 1,
            TRUE,
            PART | 1,
            TRUE,
            PART | 2,
            TRUE,
            WHEN,
        ],
        place: 7,
    },
    // the formula comes first, then the effect
    Refused {
        name: "WHEN over an effect and a formula",
        words: &[
            HEAD | 1,
            PART | 1,
            TRUE,
            PART | 1,
            TRUE,
            PART | 3,
            NIL,
            TRUE,
            WHEN,
        ],
        place: 8,
    },
    // WHEN takes a formula before the effect
    Refused {
        name: "WHEN over two effects",
        words: &[
            HEAD | 1,
            PART | 1,
            TRUE,
            PART | 1,
            TRUE,
            PART | 3,
            NIL,
            NIL,
            WHEN,
        ],
        place: 8,
    },
];

// Last words that leave other than one value of the part's sort.
pub static LEFT_OVER: [Refused<&'static [u32]>; 7] = [
    // a goal gives one formula, and two wait at its last word
    Refused {
        name: "goal of two formulas",
        words: &[HEAD | 1, PART | 2, TRUE, TRUE],
        place: 3,
    },
    // NOT has its operand, and two formulas are left at the last word
    Refused {
        name: "goal that ends with NOT over two formulas",
        words: &[HEAD | 1, PART | 3, TRUE, TRUE, NOT],
        place: 4,
    },
    // a precondition gives one formula, and two wait at its last word
    Refused {
        name: "precondition of two formulas",
        words: &[
            HEAD | 1,
            PART | 1,
            TRUE,
            PART | 2,
            TRUE,
            FALSE,
            PART | 1,
            NIL,
        ],
        place: 5,
    },
    // an effect's part gives an effect
    Refused {
        name: "effect that is a formula",
        words: &[HEAD | 1, PART | 1, TRUE, PART | 1, TRUE, PART | 1, TRUE],
        place: 6,
    },
    // a formula is left over before the effect
    Refused {
        name: "effect with a formula left over",
        words: &[
            HEAD | 1,
            PART | 1,
            TRUE,
            PART | 1,
            TRUE,
            PART | 2,
            TRUE,
            SET | 0,
        ],
        place: 7,
    },
    // a formula is left over behind the effect
    Refused {
        name: "effect with a formula behind it",
        words: &[
            HEAD | 1,
            PART | 1,
            TRUE,
            PART | 1,
            TRUE,
            PART | 2,
            SET | 0,
            TRUE,
        ],
        place: 7,
    },
    // an effect's part gives one effect, and two wait at its last word
    Refused {
        name: "two effects",
        words: &[HEAD | 1, PART | 1, TRUE, PART | 1, TRUE, PART | 2, NIL, NIL],
        place: 7,
    },
];

pub static LONG: [Refused<&'static [Run]>; 4] = [
    // the 65th value (5), at the part's last word (4): 4 is the smaller number
    Refused {
        name: "65th value as a goal's last word",
        words: &[
            Run {
                words: &[HEAD | 1, PART | 65],
                times: 1,
            },
            Run {
                words: &[TRUE],
                times: 65,
            },
        ],
        place: 66,
    },
    // the same in a precondition, whose first word is at 4
    Refused {
        name: "65th value as a precondition's last word",
        words: &[
            Run {
                words: &[HEAD | 1, PART | 1, TRUE, PART | 65],
                times: 1,
            },
            Run {
                words: &[VAR | 0],
                times: 65,
            },
            Run {
                words: &[PART | 1, NIL],
                times: 1,
            },
        ],
        place: 68,
    },
    // the same in an effect, whose first word is at 6
    Refused {
        name: "65th value as an effect's last word",
        words: &[
            Run {
                words: &[HEAD | 1, PART | 1, TRUE, PART | 1, TRUE, PART | 65],
                times: 1,
            },
            Run {
                words: &[SET | 0],
                times: 65,
            },
        ],
        place: 70,
    },
    // 64 values may wait, but not behind the last word
    Refused {
        name: "64th value as a goal's last word",
        words: &[
            Run {
                words: &[HEAD | 1, PART | 64],
                times: 1,
            },
            Run {
                words: &[TRUE],
                times: 64,
            },
        ],
        place: 65,
    },
];
