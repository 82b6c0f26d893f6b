// In which states the condition of a literal is true.
use std::alloc::{AllocError, Global};
use std::fmt;
use tasks::part::EffectPart;
use tasks::state::State;
use tasks::task::Task;
use valuing::making::Literal;
use valuing::work::condition_value;
use words::fault::Fault;

// Why a condition has no value, or none that it may have.
#[derive(Clone, Copy, PartialEq)]
pub enum NotValued {
    Refused(Fault),
    // a value that is neither 0 nor 1
    Strange(u64),
}

impl From<Fault> for NotValued {
    fn from(fault: Fault) -> NotValued {
        NotValued::Refused(fault)
    }
}

impl fmt::Display for NotValued {
    fn fmt<W: fmt::Write>(&self, f: &mut fmt::Formatter<W>) -> fmt::Result {
        match self {
            NotValued::Refused(fault) => write!(f, "{fault}"),
            NotValued::Strange(value) => write!(f, "the value {value}"),
        }
    }
}

// The states of the width in which the condition is true, bit s for the state with the number s.
fn in_all_states(effect: EffectPart<'_>, literal: Literal, width: u32) -> Result<u32, NotValued> {
    let mut states = 0u32;
    for number in 0..32u32 {
        let Ok(mut state) = State::new(width, number as u64) else {
            continue;
        };
        match condition_value(&mut state, effect, literal)? {
            0 => {}
            1 => states |= 1 << number,
            value => return Err(NotValued::Strange(value)),
        }
    }
    Ok(states)
}

// The condition of the literal over the operator's effect, in the task with these words.
pub fn valued_in(
    words: &[u32],
    operator: u32,
    literal: Literal,
    width: u32,
) -> Result<u32, NotValued> {
    let mut task = Task::built_in();
    task.open(words)?;
    let effect = task.operator(operator)?.effect();
    in_all_states(effect, literal, width)
}

pub fn valued_text(heap: Global, found: Result<u32, NotValued>) -> Result<String, AllocError> {
    match found {
        Ok(states) => format!(in heap; "true in the states {states:x}"),
        Err(why) => why.to_string(heap),
    }
}
