// Reads the words of a task, one after the other, up to the first faulty one.
ghost use Rattle.std.specs.Prelude.{◌≡◌, ◌≤◌, length, Ok, Err};
ghost use Rattle.words.specs.Refusals.{task_fault};
ghost use Rattle.reading.specs.Trees.{task_tree};
ghost use Rattle.tasks.specs.Opening.{Accepts, Refuses};

use crate::progress::Progress;
use words::fault::{Fault, Refusal};

// The fault of the word at a place of the task.
fn fault_at(refusal: Refusal, at: usize) -> Fault
    requires { at ≤ 16384 }
    ensures { result ≡ task_fault refusal at }
{
    Fault::task(refusal, at as u32)
}

// What the words of a task are read to, or the fault of the first faulty word.
pub fn read_task(words: &[u32]) -> Result<Progress, Fault>
    ensures { elim result [ Ok read ↦ Accepts words.now × (read.width ≡ (task_tree words.now).width) × (read.initial ≡ (task_tree words.now).initial) × (read.operators ≡ length (task_tree words.now).operators) | Err fault ↦ Refuses words.now fault ] }
{
    if words.len() > 16384 {
        return Err(fault_at(Refusal::TooLong, 16384));
    }
    let mut progress = Progress::new();
    for (at, word) in words.iter().enumerate() {
        // With `map_err` and `?` here, what the closure returns was out of the proof's reach.
        if let Err(refusal) = progress.read_word(words.len() - at - 1, *word) {
            return Err(fault_at(refusal, at));
        }
    }
    if !progress.is_complete() {
        return Err(fault_at(Refusal::WordMissing, words.len()));
    }
    Ok(progress)
}
