// The one text that works out formulas, word by word, over any valuer: there is no other one.
ghost use Rattle.std.specs.Prelude.{◌≡◌, ◌≤◌, true, [], length, drop};
ghost use Rattle.planning.specs.ChangeSet.{EC};
ghost use Rattle.planning.specs.Tree.{Formula};
ghost use Rattle.reading.specs.Parts.{formula_of, effect_of};
ghost use Rattle.valuing.specs.Makings.{Runs, literal_of, word_making};
ghost use Rattle.valuing.specs.Working.{MakingAnswer, PartAnswer, WordsAnswer};

use crate::making::{Literal, Making, Reading, made_by};
use crate::valuer::Valuer;
use tasks::part::{EffectPart, FormulaPart};
use waiting::Waiting;
use words::fault::{Fault, Refusal};

// One word: takes its operands from the values that wait, and puts the value that is made of them.
pub(crate) fn make<V: Valuer>(
    valuer: &mut V,
    making: Making,
    waiting: &mut Waiting<u64>,
) -> Result<(), Fault>
    requires { (V.meaning valuer.old).ordered ≡ true }
    ensures { MakingAnswer (V.meaning valuer.old) (V.meaning valuer.new) making waiting.old waiting.new result }
{
    match making {
        Making::True => waiting.put(valuer.constant(true)?),
        Making::False => waiting.put(valuer.constant(false)?),
        Making::Variable(variable) => waiting.put(valuer.variable(variable)?),
        Making::Not => {
            let operand = waiting.take(0);
            waiting.put(valuer.not(operand)?);
        }
        Making::And => {
            let second = waiting.take(0);
            let first = waiting.take(0);
            waiting.put(valuer.and(first, second)?);
        }
        Making::Or => {
            let second = waiting.take(0);
            let first = waiting.take(0);
            waiting.put(valuer.or(first, second)?);
        }
        Making::Nothing => {}
    }
    Ok(())
}

// One word, read so. Valuer, reading and what waits stay parameters: a struct around them would hold the caller's valuer by `&mut`,
// and each contract would have to say how it comes back.
fn make_word<V: Valuer>(
    valuer: &mut V,
    word: u32,
    reading: Reading,
    waiting: &mut Waiting<u64>,
) -> Result<(), Fault>
    requires { (V.meaning valuer.old).ordered ≡ true }
    ensures { MakingAnswer (V.meaning valuer.old) (V.meaning valuer.new) (word_making reading word) waiting.old waiting.new result }
{
    make(valuer, made_by(reading.word(word)), waiting)
}

// All words, one after the other: the value of the formula that they leave.
fn work_out<V: Valuer>(valuer: &mut V, words: &[u32], reading: Reading) -> Result<u64, Fault>
    requires { (V.meaning valuer.old).ordered ≡ true }
    ensures { (f : Formula) → Runs (V.meaning valuer.old).width reading words.now [] f → length words.now ≤ (V.meaning valuer.old).room → WordsAnswer (V.meaning valuer.old) (V.meaning valuer.new) (length words.now) f result }
{
    let mut waiting = Waiting::new(0u64);
    for word in words {
        make_word(valuer, *word, reading, &mut waiting)?;
    }
    Ok(waiting.take(0))
}

// The words of a part over so many variables, read so. Refused if the valuer's width is another, then if its room is less
// than the words; nothing is made then.
fn words_value<V: Valuer>(
    valuer: &mut V,
    words: &[u32],
    width: u32,
    reading: Reading,
) -> Result<u64, Fault>
    requires { (V.meaning valuer.old).ordered ≡ true }
    ensures { (f : Formula) → Runs width reading words.now [] f → PartAnswer (V.meaning valuer.old) (V.meaning valuer.new) width (length words.now) f result }
{
    if width != valuer.width() {
        return Err(Fault::bank(Refusal::WrongWidth));
    }
    if (valuer.room() as usize) < words.len() {
        return Err(Fault::bank(Refusal::BankFull));
    }
    work_out(valuer, words, reading)
}

// The words of a part, which can all be worked out and leave its formula.
fn formula_words<'a>(part: FormulaPart<'a>) -> &'a [u32]
    ensures same { result.now ≡ part.entry.words.now }
    ensures runs { Runs part.entry.width Reading.Formula part.entry.words.now [] (formula_of part.entry.words.now) }
{
    part.words()
}

// The words of a part, which read so can all be worked out and leave the condition under which its effect makes the
// literal true.
fn condition_words<'a>(part: EffectPart<'a>, literal: Literal) -> &'a [u32]
    ensures same { result.now ≡ part.entry.words.now }
    ensures runs { Runs part.entry.width (Reading.Condition literal) part.entry.words.now [] (EC (literal_of literal) (effect_of part.entry.words.now)) }
{
    part.words()
}

// The value of a part's formula: true in exactly the worlds whose state makes the formula true.
pub fn formula_value<V: Valuer>(valuer: &mut V, part: FormulaPart<'_>) -> Result<u64, Fault>
    requires { (V.meaning valuer.old).ordered ≡ true }
    ensures { PartAnswer (V.meaning valuer.old) (V.meaning valuer.new) part.entry.width (length part.entry.words.now) (formula_of part.entry.words.now) result }
{
    let words = formula_words(part);
    words_value(valuer, words, part.width(), Reading::Formula)
}

// The value of the condition under which a part's effect makes the literal true.
pub fn condition_value<V: Valuer>(
    valuer: &mut V,
    part: EffectPart<'_>,
    literal: Literal,
) -> Result<u64, Fault>
    requires { (V.meaning valuer.old).ordered ≡ true }
    ensures { PartAnswer (V.meaning valuer.old) (V.meaning valuer.new) part.entry.width (length part.entry.words.now) (EC (literal_of literal) (effect_of part.entry.words.now)) result }
{
    let words = condition_words(part, literal);
    words_value(valuer, words, part.width(), Reading::Condition(literal))
}
