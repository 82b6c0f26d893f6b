// What an effect does in a state: one walk over its words, whose conditions go to the one text.
ghost use Rattle.std.specs.Prelude.{◌≡◌, [], drop, if◌then◌else◌, Ok, Err, nat_eq};
ghost use Rattle.words.specs.Refusals.{bank_fault};
ghost use Rattle.words.specs.Words.{kind_of, load_of};
ghost use Rattle.planning.specs.Tree.{Effect};
ghost use Rattle.reading.specs.Parts.{effect_of};
ghost use Rattle.valuing.specs.Changing.{change_in, doing_of, WalkAnswer, EffectRuns};

use crate::making::{Making, made_by};
use crate::single::is_one;
use crate::valuer::Valuer;
use crate::work::make;
pub use planning::change::Change;
use tasks::part::EffectPart;
use tasks::state::State;
use waiting::Waiting;
use words::fault::{Fault, Refusal};
use words::kind::{Kind, kind_of, load_of};

// What a word of an effect does with the changes that wait.
#[derive(Clone, Copy)]
enum Doing {
    Nothing,
    Sets(u32),
    Clears(u32),
    Joins,
    Guards,
    // a word of a condition
    Condition(Making),
}

// What the word does.
fn done_by(word: u32) -> Doing
    ensures { result ≡ doing_of (kind_of word) (load_of word) }
{
    match kind_of(word) {
        Some(Kind::Nil) => Doing::Nothing,
        Some(Kind::Set) => Doing::Sets(load_of(word)),
        Some(Kind::Clear) => Doing::Clears(load_of(word)),
        Some(Kind::Both) => Doing::Joins,
        Some(Kind::When) => Doing::Guards,
        _ => Doing::Condition(made_by(word)),
    }
}

// One word of an effect: takes its operands, and puts its change; a word of a condition is worked out over the state.
fn walk_word(
    state: State,
    doing: Doing,
    values: &mut Waiting<u64>,
    changes: &mut Waiting<Change>,
) -> Result<(), Fault>
    ensures { WalkAnswer state.width state.bits doing values.old values.new changes.old changes.new result }
{
    match doing {
        Doing::Nothing => changes.put(Change::none()),
        Doing::Sets(variable) => changes.put(Change::setting(variable)),
        Doing::Clears(variable) => changes.put(Change::clearing(variable)),
        Doing::Joins => {
            let second = changes.take(Change::none());
            let first = changes.take(Change::none());
            changes.put(first.joined(second));
        }
        Doing::Guards => {
            let change = changes.take(Change::none());
            let condition = values.take(0);
            changes.put(change.under(is_one(condition)));
        }
        Doing::Condition(making) => {
            let mut valuer = state;
            return make(&mut valuer, making, values);
        }
    }
    Ok(())
}

// All words of an effect: what it does in the state.
fn words_change(words: &[u32], state: State) -> Result<Change, Fault>
    ensures { (e : Effect) → EffectRuns state.width words.now [] [] e → result ≡ Ok (change_in state.width state.bits e) }
{
    let mut values = Waiting::new(0u64);
    let mut changes = Waiting::new(Change::none());
    for word in words {
        walk_word(state, done_by(*word), &mut values, &mut changes)?;
    }
    Ok(changes.take(Change::none()))
}

// The words of a part, which can all be walked over and leave its effect.
fn effect_words<'a>(part: EffectPart<'a>) -> &'a [u32]
    ensures same { result.now ≡ part.entry.words.now }
    ensures runs { EffectRuns part.entry.width part.entry.words.now [] [] (effect_of part.entry.words.now) }
{
    part.words()
}

// What the effect does in the state; refused where it is one over another number of variables.
pub fn change_of(effect: EffectPart<'_>, state: State) -> Result<Change, Fault>
    ensures { result ≡ (if nat_eq effect.entry.width state.width then Ok (change_in state.width state.bits (effect_of effect.entry.words.now)) else Err (bank_fault Refusal.WrongWidth)) }
{
    if effect.width() != state.width() {
        return Err(Fault::bank(Refusal::WrongWidth));
    }
    words_change(effect_words(effect), state)
}
