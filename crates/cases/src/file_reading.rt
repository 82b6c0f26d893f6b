// What reading a file gives.
use crate::example::WordsRead;
use std::alloc::Global;
use words::file::{FileError, FileKind, words_from_bytes};

// Reads the bytes as a task's file or a plan's.
pub fn read(heap: Global, kind: FileKind, bytes: &[u8]) -> Result<WordsRead, FileError> {
    let words = words_from_bytes(heap, kind, bytes)?;
    Ok(WordsRead {
        count: words.len(),
        last: words.last().copied(),
    })
}
