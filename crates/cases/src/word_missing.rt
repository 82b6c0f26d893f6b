// 7: a PART promises more words than are left, or a needed word is absent.
use crate::example::Refused;
use samples::build::*;

pub static SHORT: [Refused<&'static [u32]>; 14] = [
    // a task begins with a HEAD, and there is none
    Refused {
        name: "no words",
        words: &[],
        place: 0,
    },
    // the goal is absent behind the one word
    Refused {
        name: "HEAD alone",
        words: &[HEAD | 1],
        place: 1,
    },
    // the goal is absent behind three words
    Refused {
        name: "HEAD and ON words alone",
        words: &[HEAD | 2, ON | 0, ON | 1],
        place: 3,
    },
    // one word is promised and none follows
    Refused {
        name: "goal past the end, no word there",
        words: &[HEAD | 1, PART | 1],
        place: 1,
    },
    // two words are promised and one follows
    Refused {
        name: "goal past the end by one",
        words: &[HEAD | 1, PART | 2, TRUE],
        place: 1,
    },
    // the PART stands before the words inside, whatever those are
    Refused {
        name: "goal past the end over faulty words",
        words: &[HEAD | 1, PART | 3, NIL, UNUSED_0],
        place: 1,
    },
    // the longest part, with three words there
    Refused {
        name: "goal of 4,096 words past the end",
        words: &[HEAD | 1, PART | 4096, TRUE, NOT, NOT],
        place: 1,
    },
    // behind an ON the goal's PART is at place 2
    Refused {
        name: "goal past the end behind an ON",
        words: &[HEAD | 1, ON | 0, PART | 2, TRUE],
        place: 2,
    },
    // two words are promised and one follows
    Refused {
        name: "precondition past the end",
        words: &[HEAD | 1, PART | 1, TRUE, PART | 2, TRUE],
        place: 3,
    },
    // one word is promised and none follows
    Refused {
        name: "effect past the end",
        words: &[HEAD | 1, PART | 1, TRUE, PART | 1, TRUE, PART | 1],
        place: 5,
    },
    // the effect's PART promises one word too many, though the words there are a whole effect
    Refused {
        name: "effect past the end by one",
        words: &[
            HEAD | 1,
            PART | 1,
            TRUE,
            PART | 1,
            TRUE,
            PART | 4,
            TRUE,
            NIL,
            WHEN,
        ],
        place: 5,
    },
    // a precondition is there, and its effect is absent behind five words
    Refused {
        name: "no effect",
        words: &[HEAD | 1, PART | 1, TRUE, PART | 1, TRUE],
        place: 5,
    },
    // the same at the second operator
    Refused {
        name: "no effect of the second operator",
        words: &[
            HEAD | 1,
            PART | 1,
            TRUE,
            PART | 1,
            TRUE,
            PART | 1,
            NIL,
            PART | 1,
            TRUE,
        ],
        place: 9,
    },
    // one word is promised and none follows
    Refused {
        name: "precondition past the end, no word there",
        words: &[HEAD | 1, PART | 1, TRUE, PART | 1],
        place: 3,
    },
];

pub static LONG: [Refused<&'static [Run]>; 3] = [
    // 4,096 words are promised and 4,095 follow
    Refused {
        name: "goal of 4,096 words, one word missing",
        words: &[
            Run {
                words: &[HEAD | 1, PART | 4096, TRUE],
                times: 1,
            },
            Run {
                words: &[NOT],
                times: 4094,
            },
        ],
        place: 1,
    },
    // HEAD, goal and two operators take 1 + 4,097 + (4,095 + 4,096) + (2 + 4,092) = 16,383 words, and no word follows the PART
    Refused {
        name: "PART as the 16,384th word",
        words: &[
            Run {
                words: &[HEAD | 1, PART | 4096, TRUE],
                times: 1,
            },
            Run {
                words: &[NOT],
                times: 4095,
            },
            Run {
                words: &[PART | 4094, TRUE],
                times: 1,
            },
            Run {
                words: &[NOT],
                times: 4093,
            },
            Run {
                words: &[PART | 4095, NIL],
                times: 1,
            },
            Run {
                words: &[NIL, BOTH],
                times: 2047,
            },
            Run {
                words: &[PART | 1, TRUE],
                times: 1,
            },
            Run {
                words: &[PART | 4091, NIL],
                times: 1,
            },
            Run {
                words: &[NIL, BOTH],
                times: 2045,
            },
            Run {
                words: &[PART | 1],
                times: 1,
            },
        ],
        place: 16_383,
    },
    // 512 operators are allowed; the last one has no effect: 3 + 4 × 511 + 2 words
    Refused {
        name: "no effect of the 512th operator",
        words: &[
            Run {
                words: &[HEAD | 1, PART | 1, TRUE],
                times: 1,
            },
            Run {
                words: &[PART | 1, TRUE, PART | 1, NIL],
                times: 511,
            },
            Run {
                words: &[PART | 1, TRUE],
                times: 1,
            },
        ],
        place: 2049,
    },
];
