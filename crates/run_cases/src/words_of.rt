// The words of an example's task.
ghost use Rattle.std.specs.Prelude.{◌≡◌, ◌++◌, OnOk};
ghost use Rattle.run_cases.specs.Cells.{part_words, on_words, operator_words, started_words};

use crate::example::{Cell, StartedCell};
use samples::build::*;
use std::alloc::{AllocError, Global};

fn push_part(words: &mut Vec<u32>, part: &[u32]) -> Result<(), AllocError>
    ensures { OnOk result (words.new.items ≡ words.old.items ++ part_words part.now) }
{
    let length = u32::try_from(part.len()).unwrap_or(LARGEST);
    words.push(PART | length)?;
    words.extend_from_slice(part)
}

// The words that make the variables of a start true.
fn push_on(words: &mut Vec<u32>, start: u64) -> Result<(), AllocError>
    ensures { OnOk result (words.new.items ≡ words.old.items ++ on_words start 64) }
{
    for variable in 0..64u32 {
        if start >> variable & 1 == 1 {
            words.push(ON | variable)?;
        }
    }
    Ok(())
}

impl Words for StartedCell {
    ghost words_of = { started_words };

    // The cell with the variables of the start true.
    fn all_words(&self, heap: Global) -> Result<Vec<u32>, AllocError> {
        let mut words = vec![in heap; HEAD | self.cell.width]?;
        push_on(&mut words, self.start)?;
        push_part(&mut words, self.cell.goal)?;
        for operator in self.cell.operators {
            push_part(&mut words, operator.needs)?;
            push_part(&mut words, operator.does)?;
        }
        Ok(words)
    }
}

// The words of a cell in which no variable is true at the start.
pub fn unstarted_words(heap: Global, cell: &'static Cell) -> Result<Vec<u32>, AllocError> {
    StartedCell { cell, start: 0 }.all_words(heap)
}
