// Formulas, effects and states as text.
ghost use Rattle.std.specs.Prelude.{◌≡◌, ℕ, List, [], ◌∷◌, Some, None, IfOk, OnOk};
ghost use Rattle.std.specs.Fmt.{WritesOnOk};
ghost use Rattle.std.specs.String.{string_bytes};
ghost use Rattle.words.specs.Words.{kind_of, load_of};
ghost use Rattle.waiting.specs.Waits.{older};
ghost use Rattle.reading.specs.Parts.{formula_of, effect_of};
ghost use Rattle.telling.specs.Formulas.{formula_text, effect_text, newest_text, bracketed, negated, guarded, word_text, texts_left, texts_after};
ghost use Rattle.telling.specs.Texts.{true_text, changes_text, if_true, if_changed, listed, marked, or_word};

use std::alloc::{AllocError, Global};
use std::collections::VecDeque;
use std::fmt;
use std::marker::Model;
use tasks::part::{EffectPart, FormulaPart};
use tasks::state::State;
use words::kind::{Kind, kind_of, load_of};

// The texts that wait for a later word of the part, the newest first.
#[derive(Drop)]
struct Waiting {
    heap: Global,
    texts: VecDeque<String>,
}

// Contracts see the list of the texts.
impl Model for Waiting {
    ghost use Rattle.std.specs.Prelude.{ℕ, List, map};
    ghost use Rattle.std.specs.String.{string_bytes};

    ghost Value = { List (List ℕ) };

    ghost view = { λ w. map string_bytes w.texts.items };
}

impl Waiting {
    // The newest text that waits. In a part of an opened task there is one.
    fn newest(&mut self) -> Result<String, AllocError>
        ensures text { IfOk result (λ text. string_bytes text ≡ newest_text self.old) }
        ensures left { OnOk result (self.new ≡ older self.old) }
    {
        match self.texts.pop_front() {
            Some(text) => Ok(text),
            None => String::from_str(self.heap, "?"),
        }
    }

    // Two operands with a text between them.
    fn joined(&mut self, between: &str) -> Result<String, AllocError>
        ensures text { IfOk result (λ text. string_bytes text ≡ bracketed (newest_text (older self.old)) between.now (newest_text self.old)) }
        ensures left { OnOk result (self.new ≡ older (older self.old)) }
    {
        let second = self.newest()?;
        let first = self.newest()?;
        format!(in self.heap; "({first}{between}{second})")
    }

    // An operand behind NOT.
    fn negated(&mut self) -> Result<String, AllocError>
        ensures text { IfOk result (λ text. string_bytes text ≡ negated (newest_text self.old)) }
        ensures left { OnOk result (self.new ≡ older self.old) }
    {
        let operand = self.newest()?;
        format!(in self.heap; "not {operand}")
    }

    // An effect under a condition.
    fn guarded(&mut self) -> Result<String, AllocError>
        ensures text { IfOk result (λ text. string_bytes text ≡ guarded (newest_text (older self.old)) (newest_text self.old)) }
        ensures left { OnOk result (self.new ≡ older (older self.old)) }
    {
        let effect = self.newest()?;
        let condition = self.newest()?;
        format!(in self.heap; "when {condition}: {effect}")
    }

    // The text of one word, over the texts of its operands.
    fn word_text(&mut self, word: u32) -> Result<String, AllocError>
        ensures text { IfOk result (λ text. string_bytes text ≡ word_text (kind_of word) (load_of word) self.old) }
        ensures left { OnOk result (self.new ≡ texts_left (kind_of word) self.old) }
    {
        let load = load_of(word);
        match kind_of(word) {
            Some(Kind::True) => String::from_str(self.heap, "true"),
            Some(Kind::False) => String::from_str(self.heap, "false"),
            Some(Kind::Var) => format!(in self.heap; "v{load}"),
            Some(Kind::Not) => self.negated(),
            Some(Kind::And) => self.joined(" and "),
            Some(Kind::Or) => self.joined(" or "),
            Some(Kind::Nil) => String::from_str(self.heap, "nothing"),
            Some(Kind::Set) => format!(in self.heap; "set v{load}"),
            Some(Kind::Clear) => format!(in self.heap; "clear v{load}"),
            Some(Kind::Both) => self.joined("; "),
            Some(Kind::When) => self.guarded(),
            _ => String::from_str(self.heap, "?"),
        }
    }

    // Puts the text of one word.
    fn read(&mut self, word: u32) -> Result<(), AllocError>
        ensures { OnOk result (self.new ≡ word_text (kind_of word) (load_of word) self.old ∷ texts_left (kind_of word) self.old) }
    {
        let text = self.word_text(word)?;
        self.texts.push_front(text)?;
        Ok(())
    }
}

// The text of a part's words, operators between their operands.
fn words_text(heap: Global, words: &[u32]) -> Result<String, AllocError>
    ensures { IfOk result (λ text. string_bytes text ≡ newest_text (texts_after [] words.now)) }
{
    let mut waiting = Waiting {
        heap,
        texts: VecDeque::new(heap),
    };
    for word in words {
        waiting.read(*word)?;
    }
    waiting.newest()
}

// The text of a formula.
pub(crate) fn formula_text(heap: Global, part: FormulaPart<'_>) -> Result<String, AllocError>
    ensures { IfOk result (λ text. string_bytes text ≡ formula_text (formula_of part.entry.words.now)) }
{
    words_text(heap, part.words())
}

// The text of an effect.
pub(crate) fn effect_text(heap: Global, part: EffectPart<'_>) -> Result<String, AllocError>
    ensures { IfOk result (λ text. string_bytes text ≡ effect_text (effect_of part.entry.words.now)) }
{
    words_text(heap, part.words())
}

// Which variables are listed, each behind a sign.
trait Signs {
    ghost text: { Self → ℕ → List ℕ };

    // The sign of the variable; none if it is not listed.
    fn sign(&self, variable: u32) -> Option<&'static str>
        ensures { elim result [ Some sign ↦ text self.now variable ≡ marked sign.now variable | None ↦ text self.now variable ≡ [] ] };
}

// Writes the listed variables below the width, or the word if none is listed.
fn write_list<L: Signs, W: fmt::Write>(
    signs: &L,
    width: u32,
    word: &str,
    f: &mut fmt::Formatter<W>,
) -> fmt::Result
    ensures { WritesOnOk W.write_str_gives f.old result (or_word word.now (listed (L.text signs.now) width)) f.new }
{
    let mut between = "";
    for variable in 0..width {
        if let Some(sign) = signs.sign(variable) {
            write!(f, "{between}{sign}v{variable}")?;
            between = " ";
        }
    }
    if between.is_empty() {
        f.write_str(word)?;
    }
    Ok(())
}

// Tells the variables that are true in the state.
#[derive(Clone, Copy)]
pub struct TrueVariables(pub State);

impl Signs for TrueVariables {
    ghost text = { λ state. if_true state.0.bits };

    fn sign(&self, variable: u32) -> Option<&'static str> {
        if self.0.is_true(variable) {
            Some("")
        } else {
            None
        }
    }
}

impl fmt::Display for TrueVariables {
    ghost output = { λ state. Some (true_text state.0.width state.0.bits) };

    fn fmt<W: fmt::Write>(&self, f: &mut fmt::Formatter<W>) -> fmt::Result {
        write_list(self, self.0.width(), "none", f)
    }
}

// Tells what differs between two states: +v for a variable that became true, -v for one that became false.
#[derive(Clone, Copy)]
pub struct Changes {
    pub before: State,
    pub after: State,
}

impl Signs for Changes {
    ghost text = { λ c. if_changed c.before.bits c.after.bits };

    fn sign(&self, variable: u32) -> Option<&'static str> {
        match (self.before.is_true(variable), self.after.is_true(variable)) {
            (false, true) => Some("+"),
            (true, false) => Some("-"),
            _ => None,
        }
    }
}

impl fmt::Display for Changes {
    ghost output = { λ c. Some (changes_text c.before.width c.before.bits c.after.bits) };

    fn fmt<W: fmt::Write>(&self, f: &mut fmt::Formatter<W>) -> fmt::Result {
        write_list(self, self.before.width(), "nothing", f)
    }
}
