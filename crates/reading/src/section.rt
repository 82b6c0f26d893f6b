// What values, parts and loads of a task there are.

// The sort of a value that waits for a later word to take it.
#[derive(Clone, Copy, PartialEq, Eq, Debug)]
pub enum Sort {
    Formula,
    Effect,
}

// What a part of a task holds.
#[derive(Clone, Copy, PartialEq, Eq, Debug)]
pub enum Section {
    Goal,
    Precondition,
    Effect,
}

// What the load of a word is: always 0, a variable, or the number of something.
#[derive(Clone, Copy, PartialEq, Eq, Debug)]
pub enum Load {
    Zero,
    Variable,
    Number,
}
