// Runs at the limits: of steps, of values waiting, of words and of operators.
use crate::example::{PlanExample, Reached};
use samples::build::*;
use words::fault::{Fault, Layer, Refusal};

const SETS_0_TO_63: [u32; 64] = [
    SET | 0,
    SET | 1,
    SET | 2,
    SET | 3,
    SET | 4,
    SET | 5,
    SET | 6,
    SET | 7,
    SET | 8,
    SET | 9,
    SET | 10,
    SET | 11,
    SET | 12,
    SET | 13,
    SET | 14,
    SET | 15,
    SET | 16,
    SET | 17,
    SET | 18,
    SET | 19,
    SET | 20,
    SET | 21,
    SET | 22,
    SET | 23,
    SET | 24,
    SET | 25,
    SET | 26,
    SET | 27,
    SET | 28,
    SET | 29,
    SET | 30,
    SET | 31,
    SET | 32,
    SET | 33,
    SET | 34,
    SET | 35,
    SET | 36,
    SET | 37,
    SET | 38,
    SET | 39,
    SET | 40,
    SET | 41,
    SET | 42,
    SET | 43,
    SET | 44,
    SET | 45,
    SET | 46,
    SET | 47,
    SET | 48,
    SET | 49,
    SET | 50,
    SET | 51,
    SET | 52,
    SET | 53,
    SET | 54,
    SET | 55,
    SET | 56,
    SET | 57,
    SET | 58,
    SET | 59,
    SET | 60,
    SET | 61,
    SET | 62,
    SET | 63,
];

const SETS_0_TO_62: [u32; 63] = [
    SET | 0,
    SET | 1,
    SET | 2,
    SET | 3,
    SET | 4,
    SET | 5,
    SET | 6,
    SET | 7,
    SET | 8,
    SET | 9,
    SET | 10,
    SET | 11,
    SET | 12,
    SET | 13,
    SET | 14,
    SET | 15,
    SET | 16,
    SET | 17,
    SET | 18,
    SET | 19,
    SET | 20,
    SET | 21,
    SET | 22,
    SET | 23,
    SET | 24,
    SET | 25,
    SET | 26,
    SET | 27,
    SET | 28,
    SET | 29,
    SET | 30,
    SET | 31,
    SET | 32,
    SET | 33,
    SET | 34,
    SET | 35,
    SET | 36,
    SET | 37,
    SET | 38,
    SET | 39,
    SET | 40,
    SET | 41,
    SET | 42,
    SET | 43,
    SET | 44,
    SET | 45,
    SET | 46,
    SET | 47,
    SET | 48,
    SET | 49,
    SET | 50,
    SET | 51,
    SET | 52,
    SET | 53,
    SET | 54,
    SET | 55,
    SET | 56,
    SET | 57,
    SET | 58,
    SET | 59,
    SET | 60,
    SET | 61,
    SET | 62,
];

const ONS_1_TO_61: [u32; 61] = [
    ON | 1,
    ON | 2,
    ON | 3,
    ON | 4,
    ON | 5,
    ON | 6,
    ON | 7,
    ON | 8,
    ON | 9,
    ON | 10,
    ON | 11,
    ON | 12,
    ON | 13,
    ON | 14,
    ON | 15,
    ON | 16,
    ON | 17,
    ON | 18,
    ON | 19,
    ON | 20,
    ON | 21,
    ON | 22,
    ON | 23,
    ON | 24,
    ON | 25,
    ON | 26,
    ON | 27,
    ON | 28,
    ON | 29,
    ON | 30,
    ON | 31,
    ON | 32,
    ON | 33,
    ON | 34,
    ON | 35,
    ON | 36,
    ON | 37,
    ON | 38,
    ON | 39,
    ON | 40,
    ON | 41,
    ON | 42,
    ON | 43,
    ON | 44,
    ON | 45,
    ON | 46,
    ON | 47,
    ON | 48,
    ON | 49,
    ON | 50,
    ON | 51,
    ON | 52,
    ON | 53,
    ON | 54,
    ON | 55,
    ON | 56,
    ON | 57,
    ON | 58,
    ON | 59,
    ON | 60,
    ON | 61,
];

const VARS_0_TO_62: [u32; 63] = [
    VAR | 0,
    VAR | 1,
    VAR | 2,
    VAR | 3,
    VAR | 4,
    VAR | 5,
    VAR | 6,
    VAR | 7,
    VAR | 8,
    VAR | 9,
    VAR | 10,
    VAR | 11,
    VAR | 12,
    VAR | 13,
    VAR | 14,
    VAR | 15,
    VAR | 16,
    VAR | 17,
    VAR | 18,
    VAR | 19,
    VAR | 20,
    VAR | 21,
    VAR | 22,
    VAR | 23,
    VAR | 24,
    VAR | 25,
    VAR | 26,
    VAR | 27,
    VAR | 28,
    VAR | 29,
    VAR | 30,
    VAR | 31,
    VAR | 32,
    VAR | 33,
    VAR | 34,
    VAR | 35,
    VAR | 36,
    VAR | 37,
    VAR | 38,
    VAR | 39,
    VAR | 40,
    VAR | 41,
    VAR | 42,
    VAR | 43,
    VAR | 44,
    VAR | 45,
    VAR | 46,
    VAR | 47,
    VAR | 48,
    VAR | 49,
    VAR | 50,
    VAR | 51,
    VAR | 52,
    VAR | 53,
    VAR | 54,
    VAR | 55,
    VAR | 56,
    VAR | 57,
    VAR | 58,
    VAR | 59,
    VAR | 60,
    VAR | 61,
    VAR | 62,
];

pub static STEPS: [PlanExample<&'static [Run], &'static [Run]>; 7] = [
    // as many as there may be; each turns 0 over, and the number is even
    PlanExample {
        name: "4,096 steps",
        task: &[Run {
            words: &[
                HEAD | 1,
                PART | 1,
                TRUE,
                PART | 1,
                TRUE,
                PART | 8,
                VAR | 0,
                CLEAR | 0,
                WHEN,
                VAR | 0,
                NOT,
                SET | 0,
                WHEN,
                BOTH,
            ],
            times: 1,
        }],
        plan: &[Run {
            words: &[0],
            times: 4_096,
        }],
        expected: Ok(Reached {
            steps: 4096,
            changes: 4096,
            end: 0x0,
        }),
    },
    // one more than there may be; 4,096 are made
    PlanExample {
        name: "4,097 steps",
        task: &[Run {
            words: &[
                HEAD | 1,
                PART | 1,
                TRUE,
                PART | 1,
                TRUE,
                PART | 8,
                VAR | 0,
                CLEAR | 0,
                WHEN,
                VAR | 0,
                NOT,
                SET | 0,
                WHEN,
                BOTH,
            ],
            times: 1,
        }],
        plan: &[Run {
            words: &[0],
            times: 4_097,
        }],
        expected: Err(Fault {
            layer: Layer::Run,
            refusal: Refusal::TooLong,
            step: 4096,
            place: 0,
        }),
    },
    // the number of steps comes before the operator
    PlanExample {
        name: "4,097 steps, the last of no operator",
        task: &[Run {
            words: &[
                HEAD | 1,
                PART | 1,
                TRUE,
                PART | 1,
                TRUE,
                PART | 8,
                VAR | 0,
                CLEAR | 0,
                WHEN,
                VAR | 0,
                NOT,
                SET | 0,
                WHEN,
                BOTH,
            ],
            times: 1,
        }],
        plan: &[
            Run {
                words: &[0],
                times: 4_096,
            },
            Run {
                words: &[1],
                times: 1,
            },
        ],
        expected: Err(Fault {
            layer: Layer::Run,
            refusal: Refusal::TooLong,
            step: 4096,
            place: 0,
        }),
    },
    // the run does not come to the 4,097th
    PlanExample {
        name: "4,097 steps, the first of no operator",
        task: &[Run {
            words: &[
                HEAD | 1,
                PART | 1,
                TRUE,
                PART | 1,
                TRUE,
                PART | 8,
                VAR | 0,
                CLEAR | 0,
                WHEN,
                VAR | 0,
                NOT,
                SET | 0,
                WHEN,
                BOTH,
            ],
            times: 1,
        }],
        plan: &[
            Run {
                words: &[1],
                times: 1,
            },
            Run {
                words: &[0],
                times: 4_096,
            },
        ],
        expected: Err(Fault {
            layer: Layer::Run,
            refusal: Refusal::NoSuchOperator,
            step: 0,
            place: 0,
        }),
    },
    // 4,095 are made
    PlanExample {
        name: "4,096 steps, the last of no operator",
        task: &[Run {
            words: &[
                HEAD | 1,
                PART | 1,
                TRUE,
                PART | 1,
                TRUE,
                PART | 8,
                VAR | 0,
                CLEAR | 0,
                WHEN,
                VAR | 0,
                NOT,
                SET | 0,
                WHEN,
                BOTH,
            ],
            times: 1,
        }],
        plan: &[
            Run {
                words: &[0],
                times: 4_095,
            },
            Run {
                words: &[1],
                times: 1,
            },
        ],
        expected: Err(Fault {
            layer: Layer::Run,
            refusal: Refusal::NoSuchOperator,
            step: 4095,
            place: 0,
        }),
    },
    // 0 is false after an even number; the goal is at 2
    PlanExample {
        name: "4,096 steps, goal missed",
        task: &[Run {
            words: &[
                HEAD | 1,
                PART | 1,
                VAR | 0,
                PART | 1,
                TRUE,
                PART | 8,
                VAR | 0,
                CLEAR | 0,
                WHEN,
                VAR | 0,
                NOT,
                SET | 0,
                WHEN,
                BOTH,
            ],
            times: 1,
        }],
        plan: &[Run {
            words: &[0],
            times: 4_096,
        }],
        expected: Err(Fault {
            layer: Layer::Run,
            refusal: Refusal::GoalMissed,
            step: 4096,
            place: 2,
        }),
    },
    // the 4,097th is refused, however many there are
    PlanExample {
        name: "10,000 steps",
        task: &[Run {
            words: &[
                HEAD | 1,
                PART | 1,
                TRUE,
                PART | 1,
                TRUE,
                PART | 8,
                VAR | 0,
                CLEAR | 0,
                WHEN,
                VAR | 0,
                NOT,
                SET | 0,
                WHEN,
                BOTH,
            ],
            times: 1,
        }],
        plan: &[Run {
            words: &[0],
            times: 10_000,
        }],
        expected: Err(Fault {
            layer: Layer::Run,
            refusal: Refusal::TooLong,
            step: 4096,
            place: 0,
        }),
    },
];

pub static WAITING: [PlanExample<&'static [Run], &'static [Run]>; 8] = [
    // 64 values wait, and 63 BOTH join them: all 64 variables change
    PlanExample {
        name: "64 effects that set",
        task: &[
            Run {
                words: &[HEAD | 64, PART | 1, TRUE, PART | 1, TRUE, PART | 127],
                times: 1,
            },
            Run {
                words: &SETS_0_TO_63,
                times: 1,
            },
            Run {
                words: &[BOTH],
                times: 63,
            },
        ],
        plan: &[Run {
            words: &[0],
            times: 1,
        }],
        expected: Ok(Reached {
            steps: 1,
            changes: 64,
            end: 0xFFFF_FFFF_FFFF_FFFF,
        }),
    },
    // the second step changes nothing
    PlanExample {
        name: "64 effects that set, again",
        task: &[
            Run {
                words: &[HEAD | 64, PART | 1, TRUE, PART | 1, TRUE, PART | 127],
                times: 1,
            },
            Run {
                words: &SETS_0_TO_63,
                times: 1,
            },
            Run {
                words: &[BOTH],
                times: 63,
            },
        ],
        plan: &[Run {
            words: &[0],
            times: 2,
        }],
        expected: Ok(Reached {
            steps: 2,
            changes: 64,
            end: 0xFFFF_FFFF_FFFF_FFFF,
        }),
    },
    // 63 effects set 0 to 62, the 64th clears 62: the effect is at 6, plus 62
    PlanExample {
        name: "64 effects, the last clashing",
        task: &[
            Run {
                words: &[HEAD | 64, PART | 1, TRUE, PART | 1, TRUE, PART | 127],
                times: 1,
            },
            Run {
                words: &SETS_0_TO_62,
                times: 1,
            },
            Run {
                words: &[CLEAR | 62],
                times: 1,
            },
            Run {
                words: &[BOTH],
                times: 63,
            },
        ],
        plan: &[Run {
            words: &[0],
            times: 1,
        }],
        expected: Err(Fault {
            layer: Layer::Run,
            refusal: Refusal::SetAndCleared,
            step: 0,
            place: 68,
        }),
    },
    // 63 formulas and an effect wait, and each WHEN takes one formula; all conditions are true
    PlanExample {
        name: "63 conditions over an effect",
        task: &[
            Run {
                words: &[HEAD | 64],
                times: 1,
            },
            Run {
                words: &[ON | 0],
                times: 1,
            },
            Run {
                words: &ONS_1_TO_61,
                times: 1,
            },
            Run {
                words: &[ON | 62],
                times: 1,
            },
            Run {
                words: &[PART | 1, TRUE, PART | 1, TRUE, PART | 127],
                times: 1,
            },
            Run {
                words: &VARS_0_TO_62,
                times: 1,
            },
            Run {
                words: &[SET | 63],
                times: 1,
            },
            Run {
                words: &[WHEN],
                times: 63,
            },
        ],
        plan: &[Run {
            words: &[0],
            times: 1,
        }],
        expected: Ok(Reached {
            steps: 1,
            changes: 1,
            end: 0xFFFF_FFFF_FFFF_FFFF,
        }),
    },
    // 0 is false, and nothing is done
    PlanExample {
        name: "63 conditions, the outermost false",
        task: &[
            Run {
                words: &[HEAD | 64],
                times: 1,
            },
            Run {
                words: &ONS_1_TO_61,
                times: 1,
            },
            Run {
                words: &[ON | 62],
                times: 1,
            },
            Run {
                words: &[PART | 1, TRUE, PART | 1, TRUE, PART | 127],
                times: 1,
            },
            Run {
                words: &VARS_0_TO_62,
                times: 1,
            },
            Run {
                words: &[SET | 63],
                times: 1,
            },
            Run {
                words: &[WHEN],
                times: 63,
            },
        ],
        plan: &[Run {
            words: &[0],
            times: 1,
        }],
        expected: Ok(Reached {
            steps: 1,
            changes: 0,
            end: 0x7FFF_FFFF_FFFF_FFFE,
        }),
    },
    // 62 is false, and nothing is done
    PlanExample {
        name: "63 conditions, the innermost false",
        task: &[
            Run {
                words: &[HEAD | 64],
                times: 1,
            },
            Run {
                words: &[ON | 0],
                times: 1,
            },
            Run {
                words: &ONS_1_TO_61,
                times: 1,
            },
            Run {
                words: &[PART | 1, TRUE, PART | 1, TRUE, PART | 127],
                times: 1,
            },
            Run {
                words: &VARS_0_TO_62,
                times: 1,
            },
            Run {
                words: &[SET | 63],
                times: 1,
            },
            Run {
                words: &[WHEN],
                times: 63,
            },
        ],
        plan: &[Run {
            words: &[0],
            times: 1,
        }],
        expected: Ok(Reached {
            steps: 1,
            changes: 0,
            end: 0x3FFF_FFFF_FFFF_FFFF,
        }),
    },
    // 64 values wait, and 63 AND join them; 63 is false, and the precondition is at 67, behind HEAD, 63 ON and a
    // goal of one word with its PART
    PlanExample {
        name: "64 formulas in a precondition",
        task: &[
            Run {
                words: &[HEAD | 64],
                times: 1,
            },
            Run {
                words: &[ON | 0],
                times: 1,
            },
            Run {
                words: &ONS_1_TO_61,
                times: 1,
            },
            Run {
                words: &[ON | 62],
                times: 1,
            },
            Run {
                words: &[PART | 1, TRUE, PART | 127],
                times: 1,
            },
            Run {
                words: &VARS_0_TO_62,
                times: 1,
            },
            Run {
                words: &[VAR | 63],
                times: 1,
            },
            Run {
                words: &[AND],
                times: 63,
            },
            Run {
                words: &[PART | 1, NIL],
                times: 1,
            },
        ],
        plan: &[Run {
            words: &[0],
            times: 1,
        }],
        expected: Err(Fault {
            layer: Layer::Run,
            refusal: Refusal::PreconditionFalse,
            step: 0,
            place: 67,
        }),
    },
    // 64 values wait, and 63 OR join them; all are false at the start, and 63 becomes true
    PlanExample {
        name: "64 formulas in a goal",
        task: &[
            Run {
                words: &[HEAD | 64, PART | 127],
                times: 1,
            },
            Run {
                words: &VARS_0_TO_62,
                times: 1,
            },
            Run {
                words: &[VAR | 63],
                times: 1,
            },
            Run {
                words: &[OR],
                times: 63,
            },
            Run {
                words: &[PART | 1, TRUE, PART | 1, SET | 63],
                times: 1,
            },
        ],
        plan: &[Run {
            words: &[0],
            times: 1,
        }],
        expected: Ok(Reached {
            steps: 1,
            changes: 1,
            end: 0x8000_0000_0000_0000,
        }),
    },
];

pub static WORDS: [PlanExample<&'static [Run], &'static [Run]>; 8] = [
    // FALSE, NOT, SET 0, WHEN, and 2,046 times NIL, BOTH: only 0 is set
    PlanExample {
        name: "effect of 4,096 words",
        task: &[
            Run {
                words: &[
                    HEAD | 2,
                    PART | 1,
                    TRUE,
                    PART | 1,
                    TRUE,
                    PART | 4096,
                    FALSE,
                    NOT,
                    SET | 0,
                    WHEN,
                ],
                times: 1,
            },
            Run {
                words: &[NIL, BOTH],
                times: 2_046,
            },
        ],
        plan: &[Run {
            words: &[0],
            times: 1,
        }],
        expected: Ok(Reached {
            steps: 1,
            changes: 1,
            end: 0x1,
        }),
    },
    // 4,095 times NOT over 0, which is false
    PlanExample {
        name: "precondition of 4,096 words, true",
        task: &[
            Run {
                words: &[HEAD | 1, PART | 1, TRUE, PART | 4096, VAR | 0],
                times: 1,
            },
            Run {
                words: &[NOT],
                times: 4_095,
            },
            Run {
                words: &[PART | 1, SET | 0],
                times: 1,
            },
        ],
        plan: &[Run {
            words: &[0],
            times: 1,
        }],
        expected: Ok(Reached {
            steps: 1,
            changes: 1,
            end: 0x1,
        }),
    },
    // after the first step 0 is true; the precondition is at 4
    PlanExample {
        name: "precondition of 4,096 words, false",
        task: &[
            Run {
                words: &[HEAD | 1, PART | 1, TRUE, PART | 4096, VAR | 0],
                times: 1,
            },
            Run {
                words: &[NOT],
                times: 4_095,
            },
            Run {
                words: &[PART | 1, SET | 0],
                times: 1,
            },
        ],
        plan: &[Run {
            words: &[0],
            times: 2,
        }],
        expected: Err(Fault {
            layer: Layer::Run,
            refusal: Refusal::PreconditionFalse,
            step: 1,
            place: 4,
        }),
    },
    // HEAD, goal and precondition with their PARTs are 1 + 2 + 4,097 words, and the effect's PART is one more
    PlanExample {
        name: "clash behind a long precondition",
        task: &[
            Run {
                words: &[HEAD | 1, PART | 1, TRUE, PART | 4096, VAR | 0],
                times: 1,
            },
            Run {
                words: &[NOT],
                times: 4_095,
            },
            Run {
                words: &[PART | 3, SET | 0, CLEAR | 0, BOTH],
                times: 1,
            },
        ],
        plan: &[Run {
            words: &[0],
            times: 1,
        }],
        expected: Err(Fault {
            layer: Layer::Run,
            refusal: Refusal::SetAndCleared,
            step: 0,
            place: 4101,
        }),
    },
    // 4,095 times NOT over 0, which is true; the goal is at 3
    PlanExample {
        name: "goal of 4,096 words, false",
        task: &[
            Run {
                words: &[HEAD | 1, ON | 0, PART | 4096, VAR | 0],
                times: 1,
            },
            Run {
                words: &[NOT],
                times: 4_095,
            },
        ],
        plan: &[],
        expected: Err(Fault {
            layer: Layer::Run,
            refusal: Refusal::GoalMissed,
            step: 0,
            place: 3,
        }),
    },
    // operator k has its precondition at 4 + 4 × k: 2,048 for 511
    PlanExample {
        name: "last of 512 operators",
        task: &[
            Run {
                words: &[HEAD | 1, PART | 1, TRUE],
                times: 1,
            },
            Run {
                words: &[PART | 1, VAR | 0, PART | 1, CLEAR | 0],
                times: 512,
            },
        ],
        plan: &[Run {
            words: &[511],
            times: 1,
        }],
        expected: Err(Fault {
            layer: Layer::Run,
            refusal: Refusal::PreconditionFalse,
            step: 0,
            place: 2048,
        }),
    },
    // 0 is true at the start and becomes false
    PlanExample {
        name: "last of 512 operators, fitting",
        task: &[
            Run {
                words: &[HEAD | 1, ON | 0, PART | 1, TRUE],
                times: 1,
            },
            Run {
                words: &[PART | 1, VAR | 0, PART | 1, CLEAR | 0],
                times: 512,
            },
        ],
        plan: &[Run {
            words: &[511],
            times: 1,
        }],
        expected: Ok(Reached {
            steps: 1,
            changes: 1,
            end: 0x0,
        }),
    },
    // the operators are 0 to 511
    PlanExample {
        name: "operator 512 of 512",
        task: &[
            Run {
                words: &[HEAD | 1, ON | 0, PART | 1, TRUE],
                times: 1,
            },
            Run {
                words: &[PART | 1, VAR | 0, PART | 1, CLEAR | 0],
                times: 512,
            },
        ],
        plan: &[Run {
            words: &[512],
            times: 1,
        }],
        expected: Err(Fault {
            layer: Layer::Run,
            refusal: Refusal::NoSuchOperator,
            step: 0,
            place: 0,
        }),
    },
];
