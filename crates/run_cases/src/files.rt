// Files, and the line that tells the verdict on them: the order of faults, loose bytes, and files that are missing.
use crate::example::FilesExample;
use samples::build::*;
use samples::cell::CELL;

pub static FILES: [FilesExample; 19] = [
    // four steps, four changes, and 2 is true at the end
    FilesExample {
        name: "files: the cell and 2 0 1 0",
        task: FileBytes {
            runs: &[Run {
                words: &CELL,
                times: 1,
            }],
            tail: &[],
        },
        plan: FileBytes {
            runs: &[Run {
                words: &[2, 0, 1, 0],
                times: 1,
            }],
            tail: &[],
        },
        line: "ACCEPT 4 4 0000000000000004",
    },
    // the precondition of operator 1 is false after one step
    FilesExample {
        name: "files: the cell and 0 1 0",
        task: FileBytes {
            runs: &[Run {
                words: &CELL,
                times: 1,
            }],
            tail: &[],
        },
        plan: FileBytes {
            runs: &[Run {
                words: &[0, 1, 0],
                times: 1,
            }],
            tail: &[],
        },
        line: "REFUSE 10 1 19",
    },
    // a plan that is missing has no bytes, so no steps
    FilesExample {
        name: "files: the cell and no plan",
        task: FileBytes {
            runs: &[Run {
                words: &CELL,
                times: 1,
            }],
            tail: &[],
        },
        plan: FileBytes {
            runs: &[],
            tail: &[],
        },
        line: "REFUSE 15 0 3",
    },
    // a task that is missing has no bytes, so no words
    FilesExample {
        name: "files: no task and no plan",
        task: FileBytes {
            runs: &[],
            tail: &[],
        },
        plan: FileBytes {
            runs: &[],
            tail: &[],
        },
        line: "REFUSE 7 0 0",
    },
    // the task's fault comes first
    FilesExample {
        name: "files: no task and a plan",
        task: FileBytes {
            runs: &[],
            tail: &[],
        },
        plan: FileBytes {
            runs: &[Run {
                words: &[0],
                times: 1,
            }],
            tail: &[],
        },
        line: "REFUSE 7 0 0",
    },
    // the task's fault comes first, though the plan's has the smaller number
    FilesExample {
        name: "files: no task and a plan with loose bytes",
        task: FileBytes {
            runs: &[],
            tail: &[],
        },
        plan: FileBytes {
            runs: &[],
            tail: &[1, 2, 3],
        },
        line: "REFUSE 7 0 0",
    },
    // the task's file comes first: one whole word before the loose byte
    FilesExample {
        name: "files: a task with loose bytes and a plan with loose bytes",
        task: FileBytes {
            runs: &[Run {
                words: &[HEAD | 1],
                times: 1,
            }],
            tail: &[224],
        },
        plan: FileBytes {
            runs: &[],
            tail: &[1, 2, 3],
        },
        line: "REFUSE 1 0 1",
    },
    // the task's word comes before the plan's file
    FilesExample {
        name: "files: a faulty task and a plan too long",
        task: FileBytes {
            runs: &[Run {
                words: &[TRUE],
                times: 1,
            }],
            tail: &[],
        },
        plan: FileBytes {
            runs: &[Run {
                words: &[0],
                times: 4_097,
            }],
            tail: &[],
        },
        line: "REFUSE 2 0 0",
    },
    // the goal is two formulas
    FilesExample {
        name: "files: a task with a fault at its end and a plan with loose bytes",
        task: FileBytes {
            runs: &[Run {
                words: &[HEAD | 1, PART | 2, TRUE, TRUE],
                times: 1,
            }],
            tail: &[],
        },
        plan: FileBytes {
            runs: &[],
            tail: &[1],
        },
        line: "REFUSE 4 0 3",
    },
    // the task's file comes first
    FilesExample {
        name: "files: a task too long and a plan with loose bytes",
        task: FileBytes {
            runs: &[Run {
                words: &[NIL],
                times: 16_385,
            }],
            tail: &[],
        },
        plan: FileBytes {
            runs: &[],
            tail: &[1],
        },
        line: "REFUSE 6 0 16384",
    },
    // one whole word before the three bytes; its number is of no operator, but the file comes before the run
    FilesExample {
        name: "files: a plan with loose bytes",
        task: FileBytes {
            runs: &[Run {
                words: &CELL,
                times: 1,
            }],
            tail: &[],
        },
        plan: FileBytes {
            runs: &[Run {
                words: &[9],
                times: 1,
            }],
            tail: &[0, 0, 0],
        },
        line: "REFUSE 1 0 1",
    },
    // 4,096 whole words before the byte
    FilesExample {
        name: "files: a plan of 4,096 steps and a byte",
        task: FileBytes {
            runs: &[Run {
                words: &CELL,
                times: 1,
            }],
            tail: &[],
        },
        plan: FileBytes {
            runs: &[Run {
                words: &[0],
                times: 4_096,
            }],
            tail: &[0],
        },
        line: "REFUSE 1 0 4096",
    },
    // the file's refusal, with step 0, though the first number is of no operator
    FilesExample {
        name: "files: a plan of 4,097 words",
        task: FileBytes {
            runs: &[Run {
                words: &CELL,
                times: 1,
            }],
            tail: &[],
        },
        plan: FileBytes {
            runs: &[Run {
                words: &[9],
                times: 4_097,
            }],
            tail: &[],
        },
        line: "REFUSE 6 0 4096",
    },
    // too many words come before loose bytes
    FilesExample {
        name: "files: a plan of 4,097 words and a byte",
        task: FileBytes {
            runs: &[Run {
                words: &CELL,
                times: 1,
            }],
            tail: &[],
        },
        plan: FileBytes {
            runs: &[Run {
                words: &[0],
                times: 4_097,
            }],
            tail: &[7],
        },
        line: "REFUSE 6 0 4096",
    },
    // as many as there may be: 0 is turned over an even number of times, and 2 stays false
    FilesExample {
        name: "files: a plan of 4,096 words",
        task: FileBytes {
            runs: &[Run {
                words: &CELL,
                times: 1,
            }],
            tail: &[],
        },
        plan: FileBytes {
            runs: &[Run {
                words: &[0],
                times: 4_096,
            }],
            tail: &[],
        },
        line: "REFUSE 15 4096 3",
    },
    // the bytes 0 0 0 2 are the number 2
    FilesExample {
        name: "files: the highest byte first",
        task: FileBytes {
            runs: &[Run {
                words: &CELL,
                times: 1,
            }],
            tail: &[],
        },
        plan: FileBytes {
            runs: &[],
            tail: &[0, 0, 0, 2],
        },
        line: "REFUSE 15 1 3",
    },
    // the bytes 2 0 0 0 are a number of no operator
    FilesExample {
        name: "files: the lowest byte first",
        task: FileBytes {
            runs: &[Run {
                words: &CELL,
                times: 1,
            }],
            tail: &[],
        },
        plan: FileBytes {
            runs: &[],
            tail: &[2, 0, 0, 0],
        },
        line: "REFUSE 9 0 0",
    },
    // no step, no change, and nothing is true
    FilesExample {
        name: "files: the smallest task and no plan",
        task: FileBytes {
            runs: &[Run {
                words: &[HEAD | 1, PART | 1, TRUE],
                times: 1,
            }],
            tail: &[],
        },
        plan: FileBytes {
            runs: &[],
            tail: &[],
        },
        line: "ACCEPT 0 0 0000000000000000",
    },
    // the effect is at 6, and 0 is set and cleared
    FilesExample {
        name: "files: a task of two operators, one that clashes",
        task: FileBytes {
            runs: &[Run {
                words: &[
                    HEAD | 1,
                    PART | 1,
                    TRUE,
                    PART | 1,
                    TRUE,
                    PART | 3,
                    SET | 0,
                    CLEAR | 0,
                    BOTH,
                    PART | 1,
                    TRUE,
                    PART | 1,
                    SET | 0,
                ],
                times: 1,
            }],
            tail: &[],
        },
        plan: FileBytes {
            runs: &[Run {
                words: &[1, 0],
                times: 1,
            }],
            tail: &[],
        },
        line: "REFUSE 11 1 6",
    },
];
