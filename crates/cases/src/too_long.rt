// 6: a part of no words or of more than 4,096, a 513th operator, or more than 16,384 words.
use crate::example::Refused;
use samples::build::*;

// Lengths of parts.
pub static SHORT: [Refused<&'static [u32]>; 8] = [
    // a part has at least one word
    Refused {
        name: "goal of no words",
        words: &[HEAD | 1, PART | 0, TRUE],
        place: 1,
    },
    // a part has at least one word, and none is promised past the end
    Refused {
        name: "goal of no words at the end",
        words: &[HEAD | 1, PART | 0],
        place: 1,
    },
    // a part has at least one word
    Refused {
        name: "precondition of no words",
        words: &[HEAD | 1, PART | 1, TRUE, PART | 0, PART | 1, NIL],
        place: 3,
    },
    // a part has at least one word
    Refused {
        name: "effect of no words",
        words: &[HEAD | 1, PART | 1, TRUE, PART | 1, TRUE, PART | 0],
        place: 5,
    },
    // the words are not there either (7), and 6 is the smaller number
    Refused {
        name: "goal of 4,097 words past the end",
        words: &[HEAD | 1, PART | 4097],
        place: 1,
    },
    // the words are not there either (7), and 6 is the smaller number
    Refused {
        name: "goal of the largest length",
        words: &[HEAD | 1, PART | LARGEST, TRUE],
        place: 1,
    },
    // the words are not there either (7), and 6 is the smaller number
    Refused {
        name: "effect of 4,097 words past the end",
        words: &[HEAD | 1, PART | 1, TRUE, PART | 1, TRUE, PART | 4097, NIL],
        place: 5,
    },
    // the unused kind comes later
    Refused {
        name: "goal of no words before an unused kind",
        words: &[HEAD | 1, PART | 0, UNUSED_0],
        place: 1,
    },
];

pub static PARTS: [Refused<&'static [Run]>; 3] = [
    // a part has at most 4,096 words, though all are there
    Refused {
        name: "goal of 4,097 words",
        words: &[
            Run {
                words: &[HEAD | 1, PART | 4097, TRUE],
                times: 1,
            },
            Run {
                words: &[NOT],
                times: 4096,
            },
        ],
        place: 1,
    },
    // a part has at most 4,096 words, though all are there
    Refused {
        name: "precondition of 4,097 words",
        words: &[
            Run {
                words: &[HEAD | 1, PART | 1, TRUE, PART | 4097, TRUE],
                times: 1,
            },
            Run {
                words: &[NOT],
                times: 4096,
            },
            Run {
                words: &[PART | 1, NIL],
                times: 1,
            },
        ],
        place: 3,
    },
    // a part has at most 4,096 words, though all are there: 1 + 2 × 2,048
    Refused {
        name: "effect of 4,097 words",
        words: &[
            Run {
                words: &[HEAD | 1, PART | 1, TRUE, PART | 1, TRUE, PART | 4097, NIL],
                times: 1,
            },
            Run {
                words: &[NIL, BOTH],
                times: 2048,
            },
        ],
        place: 5,
    },
];

// HEAD, goal and 512 operators of 4 words take 3 + 2,048 words, so a 513th operator begins at 2,051.
pub static OPERATORS: [Refused<&'static [Run]>; 5] = [
    // a task has at most 512 operators
    Refused {
        name: "513 operators",
        words: &[
            Run {
                words: &[HEAD | 1, PART | 1, TRUE],
                times: 1,
            },
            Run {
                words: &[PART | 1, TRUE, PART | 1, NIL],
                times: 513,
            },
        ],
        place: 2051,
    },
    // both rules are 6
    Refused {
        name: "513th operator of no words",
        words: &[
            Run {
                words: &[HEAD | 1, PART | 1, TRUE],
                times: 1,
            },
            Run {
                words: &[PART | 1, TRUE, PART | 1, NIL],
                times: 512,
            },
            Run {
                words: &[PART | 0],
                times: 1,
            },
        ],
        place: 2051,
    },
    // both rules are 6, and the words that are not there (7) are the larger number
    Refused {
        name: "513th operator of 4,097 words",
        words: &[
            Run {
                words: &[HEAD | 1, PART | 1, TRUE],
                times: 1,
            },
            Run {
                words: &[PART | 1, TRUE, PART | 1, NIL],
                times: 512,
            },
            Run {
                words: &[PART | 4097],
                times: 1,
            },
        ],
        place: 2051,
    },
    // its word is not there either (7), and 6 is the smaller number
    Refused {
        name: "513th operator past the end",
        words: &[
            Run {
                words: &[HEAD | 1, PART | 1, TRUE],
                times: 1,
            },
            Run {
                words: &[PART | 1, TRUE, PART | 1, NIL],
                times: 512,
            },
            Run {
                words: &[PART | 1],
                times: 1,
            },
        ],
        place: 2051,
    },
    // whatever stands inside
    Refused {
        name: "513th operator over an unused kind",
        words: &[
            Run {
                words: &[HEAD | 1, PART | 1, TRUE],
                times: 1,
            },
            Run {
                words: &[PART | 1, TRUE, PART | 1, NIL],
                times: 512,
            },
            Run {
                words: &[PART | 1, UNUSED_0],
                times: 1,
            },
        ],
        place: 2051,
    },
];

// The 16,385th word, before all else.
pub static WORDS: [Refused<&'static [Run]>; 4] = [
    // HEAD, goal and two operators: 1 + 4,097 + (4,097 + 4,097) + (2 + 4,091) = 16,385
    Refused {
        name: "16,385 words of a task that is whole",
        words: &[
            Run {
                words: &[HEAD | 1, PART | 4096, TRUE],
                times: 1,
            },
            Run {
                words: &[NOT],
                times: 4095,
            },
            Run {
                words: &[PART | 4096, TRUE],
                times: 1,
            },
            Run {
                words: &[NOT],
                times: 4095,
            },
            Run {
                words: &[PART | 4096, TRUE, NOT, NIL, WHEN],
                times: 1,
            },
            Run {
                words: &[NIL, BOTH],
                times: 2046,
            },
            Run {
                words: &[PART | 1, TRUE, PART | 4090, TRUE, NOT, NIL, WHEN],
                times: 1,
            },
            Run {
                words: &[NIL, BOTH],
                times: 2043,
            },
        ],
        place: 16_384,
    },
    // word 0 is faulty, and the number of words comes first
    Refused {
        name: "16,385 words of unused kind 0",
        words: &[Run {
            words: &[UNUSED_0],
            times: 16_385,
        }],
        place: 16_384,
    },
    // the goal's PART is faulty, and the number of words comes first
    Refused {
        name: "16,385 words, the goal of no words",
        words: &[
            Run {
                words: &[HEAD | 1, PART | 0],
                times: 1,
            },
            Run {
                words: &[TRUE],
                times: 16_383,
            },
        ],
        place: 16_384,
    },
    // the place is that of the 16,385th word, however many there are
    Refused {
        name: "40,000 words",
        words: &[
            Run {
                words: &[HEAD | 65],
                times: 1,
            },
            Run {
                words: &[NIL],
                times: 39_999,
            },
        ],
        place: 16_384,
    },
];
