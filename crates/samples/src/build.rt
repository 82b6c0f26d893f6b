// The words of which the examples are made.
ghost use Rattle.std.specs.Prelude.{◌≡◌, ℕ, List, ◌++◌, IfOk, OnOk};
ghost use Rattle.std.specs.List.{repeat};
ghost use Rattle.words.specs.Files.{bytes_of};
ghost use Rattle.samples.specs.Runs.{run_words};

use std::alloc::{AllocError, Global};

// The kinds of words, each with load 0: `VAR | 3` is the variable 3, `PART | 2` begins a part of two words. They are numbers, as the
// format has them, and not made of `Kind`, so that a wrong number there shows in the examples.
pub const TRUE: u32 = 0x1000_0000;

pub const FALSE: u32 = 0x2000_0000;

pub const VAR: u32 = 0x3000_0000;

pub const NOT: u32 = 0x4000_0000;

pub const AND: u32 = 0x5000_0000;

pub const OR: u32 = 0x6000_0000;

pub const NIL: u32 = 0x7000_0000;

pub const SET: u32 = 0x8000_0000;

pub const CLEAR: u32 = 0x9000_0000;

pub const BOTH: u32 = 0xA000_0000;

pub const WHEN: u32 = 0xB000_0000;

pub const HEAD: u32 = 0xC000_0000;

pub const ON: u32 = 0xD000_0000;

pub const PART: u32 = 0xE000_0000;

// The two kinds that no word may have.
pub const UNUSED_0: u32 = 0x0000_0000;

pub const UNUSED_15: u32 = 0xF000_0000;

// The largest load.
pub const LARGEST: u32 = 0x0FFF_FFFF;

// Some words, so many times over.
#[derive(Clone, Copy)]
pub struct Run {
    pub words: &'static [u32],
    pub times: u32,
}

// Puts the words behind those that are there, so many times over. If memory runs out, some of them may stand there.
pub fn push_times(words: &mut Vec<u32>, some: &[u32], times: u32) -> Result<(), AllocError>
    ensures { OnOk result (words.new.items ≡ words.old.items ++ repeat times some.now) }
{
    for _ in 0..times {
        words.extend_from_slice(some)?;
    }
    Ok(())
}

// What words are made of.
pub trait Words {
    ghost words_of: { Self → List ℕ };

    fn all_words(&self, heap: Global) -> Result<Vec<u32>, AllocError>
        ensures { IfOk result (λ v. v.items ≡ words_of self.now) };
}

impl Words for &'static [u32] {
    ghost words_of = { λ words. words.now };

    // The words themselves.
    fn all_words(&self, heap: Global) -> Result<Vec<u32>, AllocError> {
        self.to_vec(heap)
    }
}

impl Words for &'static [Run] {
    ghost words_of = { λ runs. run_words runs.now };

    // The words of all runs, one after the other.
    fn all_words(&self, heap: Global) -> Result<Vec<u32>, AllocError> {
        let mut words = Vec::new(heap);
        for run in *self {
            push_times(&mut words, run.words, run.times)?;
        }
        Ok(words)
    }
}

// The bytes of the words, four to a word and the highest first. Not by the library's own writing, which has a limit that examples pass,
// and is itself tried by them.
pub fn word_bytes(heap: Global, words: &[u32]) -> Result<Vec<u8>, AllocError>
    ensures { IfOk result (λ v. v.items ≡ bytes_of words.now) }
{
    let mut bytes = Vec::new(heap);
    for word in words {
        bytes.extend_from_slice(&word.to_be_bytes())?;
    }
    Ok(bytes)
}

// A file: the bytes of all runs, and the tail behind them.
#[derive(Clone, Copy)]
pub struct FileBytes {
    pub runs: &'static [Run],
    pub tail: &'static [u8],
}

impl FileBytes {
    pub fn bytes(&self, heap: Global) -> Result<Vec<u8>, AllocError>
        ensures { IfOk result (λ v. v.items ≡ bytes_of (run_words self.now.runs.now) ++ self.now.tail.now) }
    {
        let words = self.runs.all_words(heap)?;
        let mut bytes = word_bytes(heap, &words)?;
        bytes.extend_from_slice(self.tail)?;
        Ok(bytes)
    }
}

#[cfg(test)]
mod tests {
    use super::*;
    use std::test::Fail;

    static RUNS: [Run; 2] = [
        Run {
            words: &[HEAD | 3, 0x1234_5678],
            times: 2,
        },
        Run {
            words: &[ON | 1],
            times: 1,
        },
    ];

    #[test]
    fn words_are_made(rt: HostRuntime) -> Result<(), Fail> {
        let mut words = vec![in rt.alloc(); 7]?;
        push_times(&mut words, &[1, 2], 3)?;
        assert!(rt; words.as_slice() == [7, 1, 2, 1, 2, 1, 2].as_slice());
        let listed: &'static [u32] = &[5, 6];
        let same = listed.all_words(rt.alloc())?;
        assert!(rt; same.as_slice() == [5, 6].as_slice());
        let runs: &'static [Run] = &RUNS;
        let repeated = runs.all_words(rt.alloc())?;
        assert!(rt;
            repeated.as_slice()
                == [
                    0xC000_0003,
                    0x1234_5678,
                    0xC000_0003,
                    0x1234_5678,
                    0xD000_0001
                ]
                .as_slice()
        );
        Ok(())
    }

    #[test]
    fn bytes_are_made(rt: HostRuntime) -> Result<(), Fail> {
        let bytes = word_bytes(rt.alloc(), &[0x1234_5678, 1])?;
        assert!(rt; bytes.as_slice() == [0x12, 0x34, 0x56, 0x78, 0, 0, 0, 1].as_slice());
        let file = FileBytes {
            runs: &RUNS[1..],
            tail: &[9, 8],
        };
        let whole = file.bytes(rt.alloc())?;
        assert!(rt; whole.as_slice() == [0xD0, 0, 0, 1, 9, 8].as_slice());
        Ok(())
    }
}
