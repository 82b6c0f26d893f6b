// The cells of the examples, without their start.
use crate::example::{Cell, OperatorWords};
use samples::build::*;

// Operator 0 makes b and c; 1 makes a, and a when b; 2 makes a when c, and a when b; a to c are 0 to 2.
pub const EFFECTS: Cell = Cell {
    width: 3,
    goal: &[TRUE],
    operators: &[
        OperatorWords {
            needs: &[TRUE],
            does: &[SET | 1, SET | 2, BOTH],
        },
        OperatorWords {
            needs: &[TRUE],
            does: &[SET | 0, VAR | 1, SET | 0, WHEN, BOTH],
        },
        OperatorWords {
            needs: &[TRUE],
            does: &[VAR | 2, SET | 0, WHEN, VAR | 1, SET | 0, WHEN, BOTH],
        },
    ],
};

// (b when-then a), (c when-then not a), b, not d; a to d are 0 to 3.
pub const VALUES: Cell = Cell {
    width: 4,
    goal: &[TRUE],
    operators: &[OperatorWords {
        needs: &[TRUE],
        does: &[
            VAR | 1,
            SET | 0,
            WHEN,
            VAR | 2,
            CLEAR | 0,
            WHEN,
            BOTH,
            SET | 1,
            BOTH,
            CLEAR | 3,
            BOTH,
        ],
    }],
};

// Counts up in binary: the digits are 0, 1 and 2, the lowest first. The goal is all of them.
pub const COUNTER: Cell = Cell {
    width: 3,
    goal: &[VAR | 0, VAR | 1, AND, VAR | 2, AND],
    operators: &[OperatorWords {
        needs: &[TRUE],
        does: &[
            VAR | 0,
            NOT,
            SET | 0,
            WHEN,
            VAR | 1,
            NOT,
            VAR | 0,
            AND,
            SET | 1,
            CLEAR | 0,
            BOTH,
            WHEN,
            BOTH,
            VAR | 2,
            NOT,
            VAR | 1,
            AND,
            VAR | 0,
            AND,
            SET | 2,
            CLEAR | 1,
            BOTH,
            CLEAR | 0,
            BOTH,
            WHEN,
            BOTH,
        ],
    }],
};

// (a when-then b and (c when-then not d and e)) and (not b when-then e), and the same without nesting; a to e are 0 to 4.
pub const NESTED: Cell = Cell {
    width: 5,
    goal: &[TRUE],
    operators: &[
        OperatorWords {
            needs: &[TRUE],
            does: &[
                VAR | 0,
                SET | 1,
                VAR | 2,
                CLEAR | 3,
                SET | 4,
                BOTH,
                WHEN,
                BOTH,
                WHEN,
                VAR | 1,
                NOT,
                SET | 4,
                WHEN,
                BOTH,
            ],
        },
        OperatorWords {
            needs: &[TRUE],
            does: &[
                VAR | 0,
                SET | 1,
                WHEN,
                VAR | 0,
                VAR | 2,
                AND,
                CLEAR | 3,
                WHEN,
                BOTH,
                VAR | 1,
                NOT,
                VAR | 0,
                VAR | 2,
                AND,
                OR,
                SET | 4,
                WHEN,
                BOTH,
            ],
        },
    ],
};

// Variables 0 and 1 change their values with each other.
pub const SWAP: Cell = Cell {
    width: 2,
    goal: &[TRUE],
    operators: &[OperatorWords {
        needs: &[TRUE],
        does: &[
            VAR | 0,
            SET | 1,
            WHEN,
            VAR | 0,
            NOT,
            CLEAR | 1,
            WHEN,
            BOTH,
            VAR | 1,
            SET | 0,
            WHEN,
            BOTH,
            VAR | 1,
            NOT,
            CLEAR | 0,
            WHEN,
            BOTH,
        ],
    }],
};

// Needs a, makes b; the goal is b.
pub const ONE: Cell = Cell {
    width: 2,
    goal: &[VAR | 1],
    operators: &[OperatorWords {
        needs: &[VAR | 0],
        does: &[SET | 1],
    }],
};

// Needs a, makes b; the goal is b, c and d.
pub const THREE: Cell = Cell {
    width: 4,
    goal: &[VAR | 1, VAR | 2, AND, VAR | 3, AND],
    operators: &[OperatorWords {
        needs: &[VAR | 0],
        does: &[SET | 1],
    }],
};

// Needs a, makes b when c; the goal is b.
pub const UNDER_C: Cell = Cell {
    width: 3,
    goal: &[VAR | 1],
    operators: &[OperatorWords {
        needs: &[VAR | 0],
        does: &[VAR | 2, SET | 1, WHEN],
    }],
};

// Needs a, makes b when c, and not b when b; the goal is b.
pub const C_OR_B: Cell = Cell {
    width: 3,
    goal: &[VAR | 1],
    operators: &[OperatorWords {
        needs: &[VAR | 0],
        does: &[VAR | 2, SET | 1, WHEN, VAR | 1, CLEAR | 1, WHEN, BOTH],
    }],
};

// Needs a, makes b when c, and not b when d; the goal is b.
pub const C_OR_D: Cell = Cell {
    width: 4,
    goal: &[VAR | 1],
    operators: &[OperatorWords {
        needs: &[VAR | 0],
        does: &[VAR | 2, SET | 1, WHEN, VAR | 3, CLEAR | 1, WHEN, BOTH],
    }],
};

// Needs a, makes p, which is 1, false; the goal is p.
pub const UNDONE: Cell = Cell {
    width: 2,
    goal: &[VAR | 1],
    operators: &[OperatorWords {
        needs: &[VAR | 0],
        does: &[CLEAR | 1],
    }],
};

// Operator 0 needs not a and makes b; operator 1 needs b and makes a when not c; the goal is a and b.
pub const SEARCHED: Cell = Cell {
    width: 3,
    goal: &[VAR | 0, VAR | 1, AND],
    operators: &[
        OperatorWords {
            needs: &[VAR | 0, NOT],
            does: &[SET | 1],
        },
        OperatorWords {
            needs: &[VAR | 1],
            does: &[VAR | 2, NOT, SET | 0, WHEN],
        },
    ],
};

// Blocks: 0 A on B, 1 A on the table, 2 A clear, 3 B clear, 4 B on C, 5 B on A, 6 C clear, 7 C on the table, 8 C on B.
// Operator 0 takes A from B to the table, 1 takes B from C to A, 2 takes C from the table to B. The goal is C on B on A.
pub const STACK: Cell = Cell {
    width: 9,
    goal: &[VAR | 8, VAR | 5, AND],
    operators: &[
        OperatorWords {
            needs: &[VAR | 0, VAR | 2, AND],
            does: &[CLEAR | 0, SET | 1, BOTH, SET | 3, BOTH],
        },
        OperatorWords {
            needs: &[VAR | 4, VAR | 3, AND, VAR | 2, AND],
            does: &[CLEAR | 2, CLEAR | 4, BOTH, SET | 5, BOTH, SET | 6, BOTH],
        },
        OperatorWords {
            needs: &[VAR | 7, VAR | 6, AND, VAR | 3, AND],
            does: &[CLEAR | 3, CLEAR | 7, BOTH, SET | 8, BOTH],
        },
    ],
};

// Two blocks: 0 A on B, 1 B on A, 2 A on the table, 3 B on the table, 4 A clear, 5 B clear. Operator 0 puts A on the
// table if it is clear and on B, operator 1 puts B there if it is clear and on A. The goal is both on the table.
pub const TABLE: Cell = Cell {
    width: 6,
    goal: &[VAR | 2, VAR | 3, AND],
    operators: &[
        OperatorWords {
            needs: &[TRUE],
            does: &[
                VAR | 0,
                VAR | 4,
                AND,
                SET | 2,
                SET | 5,
                BOTH,
                CLEAR | 0,
                BOTH,
                WHEN,
            ],
        },
        OperatorWords {
            needs: &[TRUE],
            does: &[
                VAR | 1,
                VAR | 5,
                AND,
                SET | 3,
                SET | 4,
                BOTH,
                CLEAR | 1,
                BOTH,
                WHEN,
            ],
        },
    ],
};

// Effects in pairs of equal meaning: 0 and 1 have a condition over two effects, 2 and 3 one condition over another,
// 4 and 5 one effect under two conditions, 6 and 7 an effect and the same under a condition.
pub const LAWS: Cell = Cell {
    width: 4,
    goal: &[TRUE],
    operators: &[
        OperatorWords {
            needs: &[TRUE],
            does: &[VAR | 0, SET | 2, SET | 3, BOTH, WHEN],
        },
        OperatorWords {
            needs: &[TRUE],
            does: &[VAR | 0, SET | 2, WHEN, VAR | 0, SET | 3, WHEN, BOTH],
        },
        OperatorWords {
            needs: &[TRUE],
            does: &[VAR | 0, VAR | 1, SET | 2, WHEN, WHEN],
        },
        OperatorWords {
            needs: &[TRUE],
            does: &[VAR | 0, VAR | 1, AND, SET | 2, WHEN],
        },
        OperatorWords {
            needs: &[TRUE],
            does: &[VAR | 0, SET | 2, WHEN, VAR | 1, SET | 2, WHEN, BOTH],
        },
        OperatorWords {
            needs: &[TRUE],
            does: &[VAR | 0, VAR | 1, OR, SET | 2, WHEN],
        },
        OperatorWords {
            needs: &[TRUE],
            does: &[SET | 2, VAR | 0, SET | 2, WHEN, BOTH],
        },
        OperatorWords {
            needs: &[TRUE],
            does: &[SET | 2],
        },
    ],
};

// Operator 0 sets and clears 0; 1 needs FALSE and does the same; 2 sets and clears 2 and 1; 3 sets and clears 1 when 0;
// 4 sets 0.
pub const CLASHES: Cell = Cell {
    width: 3,
    goal: &[TRUE],
    operators: &[
        OperatorWords {
            needs: &[TRUE],
            does: &[SET | 0, CLEAR | 0, BOTH],
        },
        OperatorWords {
            needs: &[FALSE],
            does: &[SET | 0, CLEAR | 0, BOTH],
        },
        OperatorWords {
            needs: &[TRUE],
            does: &[SET | 2, CLEAR | 2, BOTH, CLEAR | 1, BOTH, SET | 1, BOTH],
        },
        OperatorWords {
            needs: &[TRUE],
            does: &[VAR | 0, SET | 1, WHEN, VAR | 0, CLEAR | 1, WHEN, BOTH],
        },
        OperatorWords {
            needs: &[TRUE],
            does: &[SET | 0],
        },
    ],
};

// 64 variables; operator 0 sets and clears the last, 1 clears it, 2 sets it and clears 62.
pub const WIDE: Cell = Cell {
    width: 64,
    goal: &[TRUE],
    operators: &[
        OperatorWords {
            needs: &[TRUE],
            does: &[CLEAR | 63, SET | 63, BOTH],
        },
        OperatorWords {
            needs: &[TRUE],
            does: &[CLEAR | 63],
        },
        OperatorWords {
            needs: &[VAR | 63, NOT],
            does: &[SET | 63, CLEAR | 62, BOTH],
        },
    ],
};

// Operator 0 turns 0 over, 1 does nothing; the goal is 0.
pub const TURNED: Cell = Cell {
    width: 1,
    goal: &[VAR | 0],
    operators: &[
        OperatorWords {
            needs: &[TRUE],
            does: &[VAR | 0, CLEAR | 0, WHEN, VAR | 0, NOT, SET | 0, WHEN, BOTH],
        },
        OperatorWords {
            needs: &[TRUE],
            does: &[NIL],
        },
    ],
};

// No operator; the goal is FALSE or not 0.
pub const EMPTY: Cell = Cell {
    width: 1,
    goal: &[FALSE, VAR | 0, NOT, OR],
    operators: &[],
};

// The example cell.
pub const SMALL: Cell = Cell {
    width: 3,
    goal: &[VAR | 2, VAR | 0, NOT, AND],
    operators: &[
        OperatorWords {
            needs: &[TRUE],
            does: &[VAR | 0, CLEAR | 0, WHEN, VAR | 0, NOT, SET | 0, WHEN, BOTH],
        },
        OperatorWords {
            needs: &[VAR | 1, NOT],
            does: &[VAR | 0, SET | 2, WHEN],
        },
        OperatorWords {
            needs: &[TRUE],
            does: &[CLEAR | 1],
        },
    ],
};
