// Files of tasks and plans: each word is four bytes, the highest first.
ghost use Rattle.std.specs.Prelude.{◌≡◌, Some, IfOk, map};
ghost use Rattle.std.specs.Result.{result_err};
ghost use Rattle.words.specs.declared.file.FileError.TheVariants.{Refused, NoMemory};
ghost use Rattle.words.specs.Files.{limit_of, word_of, word_bytes, words_of, bytes_of, file_refusal, words_refusal, file_error_text, FileAnswer, FileLaws};

use crate::fault::{Fault, Refusal};
use std::alloc::{AllocError, AllocFailed, Global};
use std::error::Error;
use std::fmt;

// The most words in a task's file.
const TASK_WORDS: u32 = 16_384;

// The most operator numbers in a plan's file.
const PLAN_STEPS: u32 = 4_096;

// What a file holds: a task's words, or a plan's operator numbers, of which each takes all 32 bits of a word.
#[derive(Clone, Copy, PartialEq, Eq, Debug)]
pub enum FileKind {
    Task,
    Plan,
}

impl FileKind {
    // The most words that a file of this kind holds.
    pub fn most_words(self) -> u32
        ensures { result ≡ limit_of self }
    {
        match self {
            FileKind::Task => TASK_WORDS,
            FileKind::Plan => PLAN_STEPS,
        }
    }
}

// Why a file is not read or written: it has a fault, or there is no memory for the result.
#[derive(Clone, Copy, PartialEq, Eq, Debug)]
pub enum FileError {
    Refused(Fault),
    NoMemory,
}

impl fmt::Display for FileError {
    ghost output = { λ error. Some (file_error_text error) };

    fn fmt<W: fmt::Write>(&self, f: &mut fmt::Formatter<W>) -> fmt::Result {
        match self {
            FileError::Refused(fault) => write!(f, "{fault}"),
            FileError::NoMemory => write!(f, "no memory"),
        }
    }
}

impl Error for FileError {}

impl From<Fault> for FileError {
    ghost from_gives = { λ fault r. r ≡ Refused fault };

    fn from(fault: Fault) -> FileError {
        FileError::Refused(fault)
    }
}

impl From<AllocError> for FileError {
    ghost from_gives = { λ _ r. r ≡ NoMemory };

    fn from(_e: AllocError) -> FileError {
        FileError::NoMemory
    }
}

impl<T: Drop> From<AllocFailed<T>> for FileError {
    ghost from_gives = { λ _ r. r ≡ NoMemory };

    fn from(_e: AllocFailed<T>) -> FileError {
        FileError::NoMemory
    }
}

// Refuses a file that has more words than the limit, or loose bytes at its end.
fn check_length(bytes: &[u8], limit: u32) -> Result<(), Fault>
    ensures { result_err result ≡ file_refusal limit bytes.now }
{
    let whole = bytes.len() / 4;
    if whole > limit as usize {
        return Err(Fault::file(Refusal::TooLong, limit));
    }
    if bytes.len() % 4 != 0 {
        return Err(Fault::file(Refusal::LooseBytes, whole as u32));
    }
    Ok(())
}

// Refuses to write more words than the limit.
fn check_count(words: &[u32], limit: u32) -> Result<(), Fault>
    ensures { result_err result ≡ words_refusal limit words.now }
{
    if words.len() > limit as usize {
        return Err(Fault::file(Refusal::TooLong, limit));
    }
    Ok(())
}

// The word that four bytes hold, the highest first.
fn word_of(four: &[u8; 4]) -> u32
    ensures { result ≡ word_of four.now }
{
    u32::from_be_bytes(*four)
}

// The words that fours of bytes hold.
fn words_of_fours(heap: Global, fours: &[[u8; 4]]) -> Result<Vec<u32>, AllocError>
    ensures { IfOk result (λ v. v.items ≡ map word_of fours.now) }
{
    fours.iter().map(word_of).collect(heap)
}

// The four bytes of a word, the highest first.
fn bytes_of(word: u32) -> [u8; 4]
    ensures { result ≡ word_bytes word }
{
    word.to_be_bytes()
}

// The words that a file holds. A conversion that takes memory is a function and no `From`.
pub fn words_from_bytes(heap: Global, kind: FileKind, bytes: &[u8]) -> Result<Vec<u32>, FileError>
    ensures { FileAnswer (file_refusal (limit_of kind) bytes.now) (λ v. v.items ≡ words_of bytes.now) result }
{
    check_length(bytes, kind.most_words())?;
    let (fours, _) = bytes.as_chunks::<4>();
    Ok(words_of_fours(heap, fours)?)
}

// The bytes of a file that holds the words.
pub fn bytes_from_words(heap: Global, kind: FileKind, words: &[u32]) -> Result<Vec<u8>, FileError>
    ensures { FileAnswer (words_refusal (limit_of kind) words.now) (λ v. v.items ≡ bytes_of words.now) result }
{
    check_count(words, kind.most_words())?;
    let mut bytes = Vec::new(heap);
    for word in words {
        bytes.extend_from_slice(&bytes_of(*word))?;
    }
    Ok(bytes)
}

// Files give back the words that were written, and words the bytes that were read.
pub fn files_give_back()
    ensures { FileLaws }
{}

#[cfg(test)]
mod tests {
    use super::*;
    use std::test::Fail;

    const BYTES: [u8; 12] = [
        0xC0, 0x00, 0x00, 0x03, 0x12, 0x34, 0x56, 0x78, 0xFF, 0xFF, 0xFF, 0xFE,
    ];

    const WORDS: [u32; 3] = [0xC000_0003, 0x1234_5678, 0xFFFF_FFFE];

    #[test]
    fn words_are_read(rt: HostRuntime) -> Result<(), Fail> {
        for (kind, limit) in [(FileKind::Task, 16_384), (FileKind::Plan, 4_096)] {
            let words = words_from_bytes(rt.alloc(), kind, &BYTES)?;
            assert!(rt; words.as_slice() == WORDS.as_slice());
            let loose = words_from_bytes(rt.alloc(), kind, &BYTES[..11]).err();
            assert!(rt; loose == Some(FileError::Refused(Fault::file(Refusal::LooseBytes, 2))));
            let long = words_from_bytes(rt.alloc(), kind, &[0; 65_540]).err();
            assert!(rt; long == Some(FileError::Refused(Fault::file(Refusal::TooLong, limit))));
        }
        Ok(())
    }

    #[test]
    fn words_are_written(rt: HostRuntime) -> Result<(), Fail> {
        for (kind, limit) in [(FileKind::Task, 16_384), (FileKind::Plan, 4_096)] {
            let bytes = bytes_from_words(rt.alloc(), kind, &WORDS)?;
            assert!(rt; bytes.as_slice() == BYTES.as_slice());
            let long = bytes_from_words(rt.alloc(), kind, &[0; 16_385]).err();
            assert!(rt; long == Some(FileError::Refused(Fault::file(Refusal::TooLong, limit))));
        }
        Ok(())
    }
}
