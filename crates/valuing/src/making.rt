// What a word of a formula makes, and how an effect's words are read as those of a condition.
ghost use Rattle.std.specs.Prelude.{◌≡◌};
ghost use Rattle.planning.specs.ChangeSet.{is, isnt, same};
ghost use Rattle.planning.specs.ChangeWords.{changed_word, constant_word};
ghost use Rattle.words.specs.Words.{kind_of, load_of};
ghost use Rattle.valuing.specs.Makings.{making_of, literal_of, read_as};

use words::kind::{Kind, kind_of, load_of};

// What a word of a formula makes of the values that wait.
#[derive(Clone, Copy)]
pub enum Making {
    True,
    False,
    Variable(u32),
    Not,
    And,
    Or,
    // No word of a formula. This is a case of its own and no `Option` around the others: every table over makings, in specs/ too,
    // has a row for it, and would only gain a layer.
    Nothing,
}

// A variable, or its negation.
#[derive(Clone, Copy, PartialEq, Eq, Debug)]
pub enum Literal {
    Is(u32),
    IsNot(u32),
}

// Two named ways and no `Option<Literal>`, which would not name the first.
// How the words of a part are read: as those of a formula, or an effect's as those of the condition under which it makes a
// literal true.
#[derive(Clone, Copy)]
pub enum Reading {
    Formula,
    Condition(Literal),
}

// What the word makes.
pub(crate) fn made_by(word: u32) -> Making
    ensures { result ≡ making_of (kind_of word) (load_of word) }
{
    match kind_of(word) {
        Some(Kind::True) => Making::True,
        Some(Kind::False) => Making::False,
        Some(Kind::Var) => Making::Variable(load_of(word)),
        Some(Kind::Not) => Making::Not,
        Some(Kind::And) => Making::And,
        Some(Kind::Or) => Making::Or,
        _ => Making::Nothing,
    }
}

// TRUE or FALSE, as a word.
fn constant_word(truth: bool) -> u32
    ensures { result ≡ constant_word truth }
{
    if truth {
        Kind::True.word(0)
    } else {
        Kind::False.word(0)
    }
}

impl Literal {
    // Whether setting the variable makes this literal true.
    fn set_by(self, variable: u32) -> bool
        ensures { result ≡ same (is variable) (literal_of self) }
    {
        self == Literal::Is(variable)
    }

    // Whether clearing the variable makes this literal true.
    fn cleared_by(self, variable: u32) -> bool
        ensures { result ≡ same (isnt variable) (literal_of self) }
    {
        self == Literal::IsNot(variable)
    }

    // A word of an effect as a word of the condition under which the effect makes this literal true.
    fn condition_word(self, word: u32) -> u32
        ensures { result ≡ changed_word (literal_of self) word }
    {
        match kind_of(word) {
            Some(Kind::Nil) => constant_word(false),
            Some(Kind::Set) => constant_word(self.set_by(load_of(word))),
            Some(Kind::Clear) => constant_word(self.cleared_by(load_of(word))),
            Some(Kind::Both) => Kind::Or.word(0),
            Some(Kind::When) => Kind::And.word(0),
            _ => word,
        }
    }
}

impl Reading {
    // The word as it is read.
    pub(crate) fn word(self, word: u32) -> u32
        ensures { result ≡ read_as self word }
    {
        match self {
            Reading::Formula => word,
            Reading::Condition(literal) => literal.condition_word(word),
        }
    }
}
