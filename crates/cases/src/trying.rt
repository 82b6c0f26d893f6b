// Tries the examples of each kind.
ghost use Rattle.std.specs.Prelude.{◌≡◌, ◌+◌, ◌%◌, ◌^◌};

use crate::example::{FileExample, Opened, PartAt, Refused, StateExample};
use crate::file_reading::read;
use crate::opening::{NotOpened, open_and_compare, try_opening};
use samples::build::{HEAD, ON, PART, VAR, Words};
use samples::table::{Example, Table};
use std::alloc::{AllocError, Global};
use std::fmt::Display;
use std::io;
use tasks::state::State;
use words::fault::{Fault, Refusal};
use words::file::FileError;

// What is found, or why it is not, as text.
fn found_text<T: Display + Drop, E: Display + Drop>(
    heap: Global,
    found: Result<T, E>,
) -> Result<String, AllocError> {
    match found {
        Ok(value) => value.to_string(heap),
        Err(why) => why.to_string(heap),
    }
}

// Words that are refused, all with that number: the refusal belongs to a whole table of rows, not to a row.
pub fn all_refused<W: Words>(
    table: &mut Table<'_>,
    refusal: Refusal,
    examples: &[Refused<W>],
) -> io::Result<()> {
    for example in examples {
        let words = example.words.all_words(table.heap())?;
        let expected = NotOpened::Refused(Fault::task(refusal, example.place));
        let found = try_opening(&words);
        let text = found_text(table.heap(), found.map(|()| "opened"))?;
        table.line(example.name, &text, found == Err(expected))?;
    }
    Ok(())
}

fn opened(table: &mut Table<'_>, words: &[u32], example: &Opened) -> io::Result<()>
    ensures { table.new.tried ≡ (table.old.tried + 1) % 2 ^ 32 }
{
    match open_and_compare(words, example) {
        Ok(()) => table.line(example.name, "opened", true),
        Err(difference) => table.line(example.name, difference.text(), false),
    }
}

impl Example for Opened {
    fn try_on(&self, table: &mut Table<'_>) -> io::Result<()> {
        let words = self.runs.all_words(table.heap())?;
        opened(table, &words, self)
    }
}

// 64 variables, with an ON for each of them: the goal's PART is at 65.
pub fn all_true(table: &mut Table<'_>) -> io::Result<()> {
    let mut words = vec![in table.heap(); HEAD | 64]?;
    words.extend((0..64u32).map(|variable| ON | variable))?;
    words.extend_from_slice(&[PART | 1, VAR | 63])?;
    let expected = Opened {
        name: "64 variables, all true",
        runs: &[],
        width: 64,
        initial: 0xFFFF_FFFF_FFFF_FFFF,
        operators: 0,
        goal: PartAt {
            place: 66,
            length: 1,
        },
        parts: &[],
    };
    opened(table, &words, &expected)
}

impl Example for FileExample {
    fn try_on(&self, table: &mut Table<'_>) -> io::Result<()> {
        let bytes = self.file.bytes(table.heap())?;
        let found = read(table.heap(), self.kind, &bytes);
        let text = found_text(table.heap(), found)?;
        let as_expected = found == self.expected.map_err(FileError::Refused);
        table.line(self.name, &text, as_expected)
    }
}

impl Example for StateExample {
    fn try_on(&self, table: &mut Table<'_>) -> io::Result<()> {
        match State::new(self.width, self.bits) {
            Ok(state) => {
                let kept = state.width() == self.width && state.bits() == self.bits;
                table.line(self.name, "made", self.expected.is_ok() && kept)
            }
            Err(fault) => {
                let text = fault.to_string(table.heap())?;
                let expected = self.expected.map_err(|refusal| Fault::bank(refusal));
                table.line(self.name, &text, expected == Err(fault))
            }
        }
    }
}
