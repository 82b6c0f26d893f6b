// 1 and 6 of files: bytes that are no whole words, and more words than a file may hold.
use crate::example::{FileExample, WordsRead};
use samples::build::*;
use words::fault::{Fault, Layer, Refusal};
use words::file::FileKind;

// Files of tasks.
pub static TASKS: [FileExample; 11] = [
    // an empty file has no words
    FileExample {
        name: "task file of no bytes",
        kind: FileKind::Task,
        file: FileBytes {
            runs: &[],
            tail: &[],
        },
        expected: Ok(WordsRead {
            count: 0,
            last: None,
        }),
    },
    // the highest byte of a word comes first
    FileExample {
        name: "task file of 12 bytes",
        kind: FileKind::Task,
        file: FileBytes {
            runs: &[],
            tail: &[0xC0, 0, 0, 1, 0xE0, 0, 0, 1, 0x12, 0x34, 0x56, 0x78],
        },
        expected: Ok(WordsRead {
            count: 3,
            last: Some(0x1234_5678),
        }),
    },
    // no whole word before the loose bytes
    FileExample {
        name: "task file of 1 byte",
        kind: FileKind::Task,
        file: FileBytes {
            runs: &[],
            tail: &[0xC0],
        },
        expected: Err(Fault {
            layer: Layer::File,
            refusal: Refusal::LooseBytes,
            step: 0,
            place: 0,
        }),
    },
    // no whole word before the loose bytes
    FileExample {
        name: "task file of 3 bytes",
        kind: FileKind::Task,
        file: FileBytes {
            runs: &[],
            tail: &[0xC0, 0, 0],
        },
        expected: Err(Fault {
            layer: Layer::File,
            refusal: Refusal::LooseBytes,
            step: 0,
            place: 0,
        }),
    },
    // one whole word before the loose byte
    FileExample {
        name: "task file of 5 bytes",
        kind: FileKind::Task,
        file: FileBytes {
            runs: &[],
            tail: &[0xC0, 0, 0, 1, 0xE0],
        },
        expected: Err(Fault {
            layer: Layer::File,
            refusal: Refusal::LooseBytes,
            step: 0,
            place: 1,
        }),
    },
    // before any word, so though the first of the three whole words is of an unused kind
    FileExample {
        name: "task file of three faulty words and 2 bytes",
        kind: FileKind::Task,
        file: FileBytes {
            runs: &[Run {
                words: &[UNUSED_0],
                times: 3,
            }],
            tail: &[1, 2],
        },
        expected: Err(Fault {
            layer: Layer::File,
            refusal: Refusal::LooseBytes,
            step: 0,
            place: 3,
        }),
    },
    // as many words as there may be
    FileExample {
        name: "task file of 16,384 words",
        kind: FileKind::Task,
        file: FileBytes {
            runs: &[Run {
                words: &[NIL | 5],
                times: 16_384,
            }],
            tail: &[],
        },
        expected: Ok(WordsRead {
            count: 16_384,
            last: Some(NIL | 5),
        }),
    },
    // loose bytes are no 16,385th word
    FileExample {
        name: "task file of 16,384 words and 3 bytes",
        kind: FileKind::Task,
        file: FileBytes {
            runs: &[Run {
                words: &[NIL],
                times: 16_384,
            }],
            tail: &[1, 2, 3],
        },
        expected: Err(Fault {
            layer: Layer::File,
            refusal: Refusal::LooseBytes,
            step: 0,
            place: 16_384,
        }),
    },
    // one word too many
    FileExample {
        name: "task file of 16,385 words",
        kind: FileKind::Task,
        file: FileBytes {
            runs: &[Run {
                words: &[NIL],
                times: 16_385,
            }],
            tail: &[],
        },
        expected: Err(Fault {
            layer: Layer::File,
            refusal: Refusal::TooLong,
            step: 0,
            place: 16_384,
        }),
    },
    // the 16,385th word comes before all else
    FileExample {
        name: "task file of 16,385 words and 1 byte",
        kind: FileKind::Task,
        file: FileBytes {
            runs: &[Run {
                words: &[NIL],
                times: 16_385,
            }],
            tail: &[1],
        },
        expected: Err(Fault {
            layer: Layer::File,
            refusal: Refusal::TooLong,
            step: 0,
            place: 16_384,
        }),
    },
    // the place is that of the 16,385th word, however many there are
    FileExample {
        name: "task file of 20,000 words",
        kind: FileKind::Task,
        file: FileBytes {
            runs: &[Run {
                words: &[UNUSED_0],
                times: 20_000,
            }],
            tail: &[],
        },
        expected: Err(Fault {
            layer: Layer::File,
            refusal: Refusal::TooLong,
            step: 0,
            place: 16_384,
        }),
    },
];

// Files of plans.
pub static PLANS: [FileExample; 7] = [
    // all 32 bits of a word are the number
    FileExample {
        name: "plan file of one step",
        kind: FileKind::Plan,
        file: FileBytes {
            runs: &[],
            tail: &[0xFF, 0xFE, 0xFD, 0xFC],
        },
        expected: Ok(WordsRead {
            count: 1,
            last: Some(0xFFFE_FDFC),
        }),
    },
    // no whole word before the loose bytes
    FileExample {
        name: "plan file of 2 bytes",
        kind: FileKind::Plan,
        file: FileBytes {
            runs: &[],
            tail: &[0, 0],
        },
        expected: Err(Fault {
            layer: Layer::File,
            refusal: Refusal::LooseBytes,
            step: 0,
            place: 0,
        }),
    },
    // one whole word before the loose bytes
    FileExample {
        name: "plan file of 7 bytes",
        kind: FileKind::Plan,
        file: FileBytes {
            runs: &[],
            tail: &[0, 0, 0, 1, 0, 0, 0],
        },
        expected: Err(Fault {
            layer: Layer::File,
            refusal: Refusal::LooseBytes,
            step: 0,
            place: 1,
        }),
    },
    // as many steps as there may be
    FileExample {
        name: "plan file of 4,096 steps",
        kind: FileKind::Plan,
        file: FileBytes {
            runs: &[Run {
                words: &[7],
                times: 4096,
            }],
            tail: &[],
        },
        expected: Ok(WordsRead {
            count: 4096,
            last: Some(7),
        }),
    },
    // the loose byte is no 4,097th step
    FileExample {
        name: "plan file of 4,096 steps and 1 byte",
        kind: FileKind::Plan,
        file: FileBytes {
            runs: &[Run {
                words: &[7],
                times: 4096,
            }],
            tail: &[0],
        },
        expected: Err(Fault {
            layer: Layer::File,
            refusal: Refusal::LooseBytes,
            step: 0,
            place: 4096,
        }),
    },
    // one step too many
    FileExample {
        name: "plan file of 4,097 steps",
        kind: FileKind::Plan,
        file: FileBytes {
            runs: &[Run {
                words: &[7],
                times: 4097,
            }],
            tail: &[],
        },
        expected: Err(Fault {
            layer: Layer::File,
            refusal: Refusal::TooLong,
            step: 0,
            place: 4096,
        }),
    },
    // the 4,097th step comes before all else
    FileExample {
        name: "plan file of 4,097 steps and 3 bytes",
        kind: FileKind::Plan,
        file: FileBytes {
            runs: &[Run {
                words: &[7],
                times: 4097,
            }],
            tail: &[0, 0, 0],
        },
        expected: Err(Fault {
            layer: Layer::File,
            refusal: Refusal::TooLong,
            step: 0,
            place: 4096,
        }),
    },
];
