// Files that are refused.
use samples::build::*;
use samples::cell::CELL;

// The files of a task and of a plan, one of which is refused.
#[derive(Clone, Copy)]
pub struct Example {
    pub name: &'static str,
    pub task: FileBytes,
    pub plan: FileBytes,
}

pub static REFUSED: [Example; 16] = [
    Example {
        name: "a step whose precondition is false",
        task: FileBytes {
            runs: &[Run {
                words: &CELL,
                times: 1,
            }],
            tail: &[],
        },
        plan: FileBytes {
            runs: &[Run {
                words: &[0, 1, 0],
                times: 1,
            }],
            tail: &[],
        },
    },
    Example {
        name: "a goal that is missed",
        task: FileBytes {
            runs: &[Run {
                words: &CELL,
                times: 1,
            }],
            tail: &[],
        },
        plan: FileBytes {
            runs: &[Run {
                words: &[2, 0, 1],
                times: 1,
            }],
            tail: &[],
        },
    },
    Example {
        name: "an operator that is not there",
        task: FileBytes {
            runs: &[Run {
                words: &CELL,
                times: 1,
            }],
            tail: &[],
        },
        plan: FileBytes {
            runs: &[Run {
                words: &[2, 7],
                times: 1,
            }],
            tail: &[],
        },
    },
    Example {
        name: "a variable that is set and cleared together",
        task: FileBytes {
            runs: &[Run {
                words: &[
                    HEAD | 2,
                    PART | 3,
                    FALSE,
                    VAR | 1,
                    OR,
                    PART | 1,
                    TRUE,
                    PART | 3,
                    SET | 1,
                    CLEAR | 1,
                    BOTH,
                    PART | 1,
                    VAR | 0,
                    PART | 3,
                    SET | 0,
                    SET | 1,
                    BOTH,
                ],
                times: 1,
            }],
            tail: &[],
        },
        plan: FileBytes {
            runs: &[Run {
                words: &[0],
                times: 1,
            }],
            tail: &[],
        },
    },
    Example {
        name: "no step",
        task: FileBytes {
            runs: &[Run {
                words: &CELL,
                times: 1,
            }],
            tail: &[],
        },
        plan: FileBytes {
            runs: &[],
            tail: &[],
        },
    },
    Example {
        name: "no task",
        task: FileBytes {
            runs: &[],
            tail: &[],
        },
        plan: FileBytes {
            runs: &[Run {
                words: &[0],
                times: 1,
            }],
            tail: &[],
        },
    },
    Example {
        name: "a word out of turn where the precondition of operator 0 begins",
        task: FileBytes {
            runs: &[Run {
                words: &[HEAD | 1, PART | 1, TRUE, ON | 0],
                times: 1,
            }],
            tail: &[],
        },
        plan: FileBytes {
            runs: &[],
            tail: &[],
        },
    },
    Example {
        name: "a variable outside in the effect of operator 1",
        task: FileBytes {
            runs: &[Run {
                words: &[
                    HEAD | 1,
                    ON | 0,
                    PART | 1,
                    TRUE,
                    PART | 1,
                    TRUE,
                    PART | 1,
                    NIL,
                    PART | 1,
                    TRUE,
                    PART | 2,
                    SET | 0,
                    SET | 5,
                ],
                times: 1,
            }],
            tail: &[],
        },
        plan: FileBytes {
            runs: &[],
            tail: &[],
        },
    },
    Example {
        name: "a goal of two formulas",
        task: FileBytes {
            runs: &[Run {
                words: &[HEAD | 1, PART | 2, TRUE, TRUE],
                times: 1,
            }],
            tail: &[],
        },
        plan: FileBytes {
            runs: &[],
            tail: &[],
        },
    },
    Example {
        name: "a 65th value in the precondition of operator 0",
        task: FileBytes {
            runs: &[
                Run {
                    words: &[HEAD | 1, PART | 1, TRUE, PART | 129],
                    times: 1,
                },
                Run {
                    words: &[TRUE],
                    times: 65,
                },
                Run {
                    words: &[AND],
                    times: 64,
                },
            ],
            tail: &[],
        },
        plan: FileBytes {
            runs: &[],
            tail: &[],
        },
    },
    Example {
        name: "a plan's file that is too long",
        task: FileBytes {
            runs: &[Run {
                words: &[HEAD | 1, PART | 1, TRUE],
                times: 1,
            }],
            tail: &[],
        },
        plan: FileBytes {
            runs: &[Run {
                words: &[0],
                times: 4_097,
            }],
            tail: &[],
        },
    },
    Example {
        name: "a part that is past the end",
        task: FileBytes {
            runs: &[Run {
                words: &[HEAD | 1, PART | 9, TRUE],
                times: 1,
            }],
            tail: &[],
        },
        plan: FileBytes {
            runs: &[],
            tail: &[],
        },
    },
    Example {
        name: "an ON that does not rise",
        task: FileBytes {
            runs: &[Run {
                words: &[HEAD | 2, ON | 1, ON | 0, PART | 1, TRUE],
                times: 1,
            }],
            tail: &[],
        },
        plan: FileBytes {
            runs: &[],
            tail: &[],
        },
    },
    Example {
        name: "no variable",
        task: FileBytes {
            runs: &[Run {
                words: &[HEAD | 0],
                times: 1,
            }],
            tail: &[],
        },
        plan: FileBytes {
            runs: &[],
            tail: &[],
        },
    },
    Example {
        name: "a task's file with loose bytes",
        task: FileBytes {
            runs: &[Run {
                words: &[HEAD | 1],
                times: 1,
            }],
            tail: &[9],
        },
        plan: FileBytes {
            runs: &[],
            tail: &[],
        },
    },
    Example {
        name: "a plan's file with loose bytes",
        task: FileBytes {
            runs: &[Run {
                words: &[HEAD | 1, PART | 1, TRUE],
                times: 1,
            }],
            tail: &[],
        },
        plan: FileBytes {
            runs: &[Run {
                words: &[3],
                times: 1,
            }],
            tail: &[1, 2],
        },
    },
];
