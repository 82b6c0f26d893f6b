// Tasks that are accepted, at the limits.
use crate::example::{Opened, OperatorAt, PartAt};
use samples::build::*;

// Widths and initial states.
pub static HEADS: [Opened; 6] = [
    // no variable is on, and there is no operator
    Opened {
        name: "smallest task",
        runs: &[Run {
            words: &[HEAD | 1, PART | 1, TRUE],
            times: 1,
        }],
        width: 1,
        initial: 0,
        operators: 0,
        goal: PartAt {
            place: 2,
            length: 1,
        },
        parts: &[],
    },
    // 2^0
    Opened {
        name: "one variable, true at the start",
        runs: &[Run {
            words: &[HEAD | 1, ON | 0, PART | 1, VAR | 0],
            times: 1,
        }],
        width: 1,
        initial: 1,
        operators: 0,
        goal: PartAt {
            place: 3,
            length: 1,
        },
        parts: &[],
    },
    // 64 variables are allowed, and 63 is the last
    Opened {
        name: "64 variables, none true",
        runs: &[Run {
            words: &[HEAD | 64, PART | 2, VAR | 63, NOT],
            times: 1,
        }],
        width: 64,
        initial: 0,
        operators: 0,
        goal: PartAt {
            place: 2,
            length: 2,
        },
        parts: &[],
    },
    // 2^63 + 1
    Opened {
        name: "64 variables, the first and the last true",
        runs: &[Run {
            words: &[HEAD | 64, ON | 0, ON | 63, PART | 1, VAR | 63],
            times: 1,
        }],
        width: 64,
        initial: 0x8000_0000_0000_0001,
        operators: 0,
        goal: PartAt {
            place: 4,
            length: 1,
        },
        parts: &[],
    },
    // 1 + 2 + 4 + 8, and 2^60 + 2^61 + 2^62 + 2^63; the goal's PART is at 9
    Opened {
        name: "64 variables, eight true",
        runs: &[
            Run {
                words: &[HEAD | 64, ON | 0, ON | 1, ON | 2, ON | 3],
                times: 1,
            },
            Run {
                words: &[ON | 60, ON | 61, ON | 62, ON | 63, PART | 1, TRUE],
                times: 1,
            },
        ],
        width: 64,
        initial: 0xF000_0000_0000_000F,
        operators: 0,
        goal: PartAt {
            place: 10,
            length: 1,
        },
        parts: &[],
    },
    // the words of the example cell: the precondition of operator 0 is at 8, of 1 at 19, of 2 at 26
    Opened {
        name: "example cell",
        runs: &[
            Run {
                words: &[HEAD | 3, ON | 1, PART | 4, VAR | 2, VAR | 0, NOT, AND],
                times: 1,
            },
            Run {
                words: &[
                    PART | 1,
                    TRUE,
                    PART | 8,
                    VAR | 0,
                    CLEAR | 0,
                    WHEN,
                    VAR | 0,
                    NOT,
                    SET | 0,
                    WHEN,
                    BOTH,
                ],
                times: 1,
            },
            Run {
                words: &[PART | 2, VAR | 1, NOT, PART | 3, VAR | 0, SET | 2, WHEN],
                times: 1,
            },
            Run {
                words: &[PART | 1, TRUE, PART | 1, CLEAR | 1],
                times: 1,
            },
        ],
        width: 3,
        initial: 2,
        operators: 3,
        goal: PartAt {
            place: 3,
            length: 4,
        },
        parts: &[
            OperatorAt {
                number: 0,
                precondition: PartAt {
                    place: 8,
                    length: 1,
                },
                effect: PartAt {
                    place: 10,
                    length: 8,
                },
            },
            OperatorAt {
                number: 1,
                precondition: PartAt {
                    place: 19,
                    length: 2,
                },
                effect: PartAt {
                    place: 22,
                    length: 3,
                },
            },
            OperatorAt {
                number: 2,
                precondition: PartAt {
                    place: 26,
                    length: 1,
                },
                effect: PartAt {
                    place: 28,
                    length: 1,
                },
            },
        ],
    },
];

// Values waiting.
pub static WAITING: [Opened; 4] = [
    // 64 may wait, and 63 AND words leave one
    Opened {
        name: "64 formulas in a goal",
        runs: &[
            Run {
                words: &[HEAD | 1, PART | 127],
                times: 1,
            },
            Run {
                words: &[TRUE],
                times: 64,
            },
            Run {
                words: &[AND],
                times: 63,
            },
        ],
        width: 1,
        initial: 0,
        operators: 0,
        goal: PartAt {
            place: 2,
            length: 127,
        },
        parts: &[],
    },
    // NOT takes one value and gives one, so the 65th word is no 65th value
    Opened {
        name: "64 formulas, then NOT",
        runs: &[
            Run {
                words: &[HEAD | 1, PART | 128],
                times: 1,
            },
            Run {
                words: &[VAR | 0],
                times: 64,
            },
            Run {
                words: &[NOT],
                times: 1,
            },
            Run {
                words: &[OR],
                times: 63,
            },
        ],
        width: 1,
        initial: 0,
        operators: 0,
        goal: PartAt {
            place: 2,
            length: 128,
        },
        parts: &[],
    },
    // 64 may wait, and 63 BOTH words leave one
    Opened {
        name: "64 effects",
        runs: &[
            Run {
                words: &[HEAD | 1, PART | 1, TRUE, PART | 1, FALSE, PART | 127],
                times: 1,
            },
            Run {
                words: &[NIL],
                times: 64,
            },
            Run {
                words: &[BOTH],
                times: 63,
            },
        ],
        width: 1,
        initial: 0,
        operators: 1,
        goal: PartAt {
            place: 2,
            length: 1,
        },
        parts: &[OperatorAt {
            number: 0,
            precondition: PartAt {
                place: 4,
                length: 1,
            },
            effect: PartAt {
                place: 6,
                length: 127,
            },
        }],
    },
    // 63 formulas and one effect wait, and each WHEN takes one formula and the effect
    Opened {
        name: "63 formulas and an effect, then WHEN words",
        runs: &[
            Run {
                words: &[HEAD | 1, PART | 1, TRUE, PART | 1, TRUE, PART | 127],
                times: 1,
            },
            Run {
                words: &[VAR | 0],
                times: 63,
            },
            Run {
                words: &[SET | 0],
                times: 1,
            },
            Run {
                words: &[WHEN],
                times: 63,
            },
        ],
        width: 1,
        initial: 0,
        operators: 1,
        goal: PartAt {
            place: 2,
            length: 1,
        },
        parts: &[OperatorAt {
            number: 0,
            precondition: PartAt {
                place: 4,
                length: 1,
            },
            effect: PartAt {
                place: 6,
                length: 127,
            },
        }],
    },
];

// Lengths and numbers.
pub static LENGTHS: [Opened; 4] = [
    // a part may have 4,096 words
    Opened {
        name: "goal of 4,096 words",
        runs: &[
            Run {
                words: &[HEAD | 1, PART | 4096, TRUE],
                times: 1,
            },
            Run {
                words: &[NOT],
                times: 4095,
            },
        ],
        width: 1,
        initial: 0,
        operators: 0,
        goal: PartAt {
            place: 2,
            length: 4096,
        },
        parts: &[],
    },
    // the effect's PART is at 3 + 4,097 and its first word one further
    Opened {
        name: "precondition and effect of 4,096 words",
        runs: &[
            Run {
                words: &[HEAD | 1, PART | 1, TRUE, PART | 4096, TRUE],
                times: 1,
            },
            Run {
                words: &[NOT],
                times: 4095,
            },
            Run {
                words: &[PART | 4096, TRUE, NOT, NIL, WHEN],
                times: 1,
            },
            Run {
                words: &[SET | 0, BOTH],
                times: 2046,
            },
        ],
        width: 1,
        initial: 0,
        operators: 1,
        goal: PartAt {
            place: 2,
            length: 1,
        },
        parts: &[OperatorAt {
            number: 0,
            precondition: PartAt {
                place: 4,
                length: 4096,
            },
            effect: PartAt {
                place: 4101,
                length: 4096,
            },
        }],
    },
    // operator k begins at 3 + 4 × k
    Opened {
        name: "512 operators",
        runs: &[
            Run {
                words: &[HEAD | 1, PART | 1, TRUE],
                times: 1,
            },
            Run {
                words: &[PART | 1, TRUE, PART | 1, NIL],
                times: 512,
            },
        ],
        width: 1,
        initial: 0,
        operators: 512,
        goal: PartAt {
            place: 2,
            length: 1,
        },
        parts: &[
            OperatorAt {
                number: 0,
                precondition: PartAt {
                    place: 4,
                    length: 1,
                },
                effect: PartAt {
                    place: 6,
                    length: 1,
                },
            },
            OperatorAt {
                number: 511,
                precondition: PartAt {
                    place: 2048,
                    length: 1,
                },
                effect: PartAt {
                    place: 2050,
                    length: 1,
                },
            },
        ],
    },
    // HEAD, goal and two operators: 1 + 4,097 + (4,097 + 4,097) + (2 + 4,090) = 16,384
    Opened {
        name: "16,384 words",
        runs: &[
            Run {
                words: &[HEAD | 1, PART | 4096, TRUE],
                times: 1,
            },
            Run {
                words: &[NOT],
                times: 4095,
            },
            Run {
                words: &[PART | 4096, TRUE],
                times: 1,
            },
            Run {
                words: &[NOT],
                times: 4095,
            },
            Run {
                words: &[PART | 4096, TRUE, NOT, NIL, WHEN],
                times: 1,
            },
            Run {
                words: &[NIL, BOTH],
                times: 2046,
            },
            Run {
                words: &[PART | 1, TRUE, PART | 4089, NIL],
                times: 1,
            },
            Run {
                words: &[NIL, BOTH],
                times: 2044,
            },
        ],
        width: 1,
        initial: 0,
        operators: 2,
        goal: PartAt {
            place: 2,
            length: 4096,
        },
        parts: &[
            OperatorAt {
                number: 0,
                precondition: PartAt {
                    place: 4099,
                    length: 4096,
                },
                effect: PartAt {
                    place: 8196,
                    length: 4096,
                },
            },
            OperatorAt {
                number: 1,
                precondition: PartAt {
                    place: 12_293,
                    length: 1,
                },
                effect: PartAt {
                    place: 12_295,
                    length: 4089,
                },
            },
        ],
    },
];
