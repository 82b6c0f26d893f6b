// The example cell.
use crate::build::*;

// Three variables: 0 clamped, 1 probe out, 2 part set. Variable 1 is true at the start; the goal is 2 and not 0.
// Operator 0 turns 0 over; operator 1 needs not 1, and sets 2 when 0; operator 2 clears 1.
pub const CELL: [u32; 29] = [
    HEAD | 3,
    ON | 1,
    PART | 4,
    VAR | 2,
    VAR | 0,
    NOT,
    AND,
    PART | 1,
    TRUE,
    PART | 8,
    VAR | 0,
    CLEAR | 0,
    WHEN,
    VAR | 0,
    NOT,
    SET | 0,
    WHEN,
    BOTH,
    PART | 2,
    VAR | 1,
    NOT,
    PART | 3,
    VAR | 0,
    SET | 2,
    WHEN,
    PART | 1,
    TRUE,
    PART | 1,
    CLEAR | 1,
];
