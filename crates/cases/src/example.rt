// What an example is, and what is expected of it.
use samples::build::{FileBytes, Run};
use std::fmt;
use words::fault::{Fault, Refusal};
use words::file::FileKind;

// Words that a task refuses, at the place.
#[derive(Clone, Copy)]
pub struct Refused<W> {
    pub name: &'static str,
    pub words: W,
    pub place: u32,
}

// Where a part's first word stands, and how many words the part has.
#[derive(Clone, Copy)]
pub struct PartAt {
    pub place: u32,
    pub length: u32,
}

// The parts of an operator.
#[derive(Clone, Copy)]
pub struct OperatorAt {
    pub number: u32,
    pub precondition: PartAt,
    pub effect: PartAt,
}

// Words that a task accepts, and what the task then is.
#[derive(Clone, Copy)]
pub struct Opened {
    pub name: &'static str,
    pub runs: &'static [Run],
    pub width: u32,
    pub initial: u64,
    pub operators: u32,
    pub goal: PartAt,
    pub parts: &'static [OperatorAt],
}

// The words that a file gives: how many, and the last one, if there is one.
#[derive(Clone, Copy, PartialEq)]
pub struct WordsRead {
    pub count: usize,
    pub last: Option<u32>,
}

// The last word is told as 0 if there is none.
impl fmt::Display for WordsRead {
    fn fmt<W: fmt::Write>(&self, f: &mut fmt::Formatter<W>) -> fmt::Result {
        let last = self.last.unwrap_or(0);
        write!(f, "{} words, the last {last:08x}", self.count)
    }
}

// A file, which gives words or is refused.
#[derive(Clone, Copy)]
pub struct FileExample {
    pub name: &'static str,
    pub kind: FileKind,
    pub file: FileBytes,
    pub expected: Result<WordsRead, Fault>,
}

// A width and bits, which make a state or are refused.
#[derive(Clone, Copy)]
pub struct StateExample {
    pub name: &'static str,
    pub width: u32,
    pub bits: u64,
    pub expected: Result<(), Refusal>,
}
