// The task whose plan takes the most work: 512 operators, and the last one as long as an operator may be.
use samples::build::*;
use std::alloc::{AllocError, Global};

// The most steps of a plan, and the number of the last operator.
pub const STEPS: u32 = 4_096;

pub const LAST: u32 = 511;

// How many words the last operator has: those of its precondition and those of its effect.
pub const OPERATOR_WORDS: u32 = 8_192;

// Turns a variable over: SET under a condition that is true where the variable is false, and CLEAR under one that is
// true where it is true. It has 8 + 3 × negations + 2 × repeats words.
fn push_turn(
    words: &mut Vec<u32>,
    variable: u32,
    negations: u32,
    repeats: u32,
) -> Result<(), AllocError> {
    words.extend_from_slice(&[VAR | variable, NOT])?;
    push_times(words, &[VAR | variable, NOT, AND], negations)?;
    words.extend_from_slice(&[SET | variable, WHEN, VAR | variable])?;
    push_times(words, &[VAR | variable, AND], repeats)?;
    words.extend_from_slice(&[CLEAR | variable, WHEN, BOTH])
}

// An effect of 4,096 words that turns all 64 variables over: 64 + 63 × 63 words, and 63 times BOTH.
fn push_effect(words: &mut Vec<u32>) -> Result<(), AllocError> {
    words.push(PART | 4_096)?;
    push_turn(words, 0, 10, 13)?;
    for variable in 1..64u32 {
        push_turn(words, variable, 9, 14)?;
        words.push(BOTH)?;
    }
    Ok(())
}

// A precondition of 4,096 words that is true in every state.
fn push_precondition(words: &mut Vec<u32>) -> Result<(), AllocError> {
    words.extend_from_slice(&[PART | 4_096, VAR, VAR, NOT, OR])?;
    push_times(words, &[NOT, NOT], 2_046)
}

// 64 variables, none true at the start, the goal TRUE, 511 operators that do nothing, and the long one.
pub fn task_words(heap: Global) -> Result<Vec<u32>, AllocError> {
    let mut words = vec![in heap; HEAD | 64, PART | 1, TRUE]?;
    push_times(&mut words, &[PART | 1, TRUE, PART | 1, NIL], LAST)?;
    push_precondition(&mut words)?;
    push_effect(&mut words)?;
    Ok(words)
}

// The long operator at each step.
pub fn plan(heap: Global) -> Result<Vec<u32>, AllocError> {
    let mut numbers = Vec::new(heap);
    push_times(&mut numbers, &[LAST], STEPS)?;
    Ok(numbers)
}
