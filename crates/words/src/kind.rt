// The kinds of words: the top 4 bits of a word are its kind, the low 28 its load.
ghost use Rattle.std.specs.Prelude.{◌≡◌, ◌/◌, ◌%◌, ◌^◌, ◌<◌, Some};
ghost use Rattle.words.specs.Words.{word, kind_of, load_of, unused_text, KindNamed, WordLaws};

use std::error::Error;
use std::fmt;

// The kinds, each with its number.
#[derive(Clone, Copy, PartialEq, Eq, Debug)]
pub enum Kind {
    True = 1,
    False = 2,
    Var = 3,
    Not = 4,
    And = 5,
    Or = 6,
    Nil = 7,
    Set = 8,
    Clear = 9,
    Both = 10,
    When = 11,
    Head = 12,
    On = 13,
    Part = 14,
}

// A number that no kind has.
#[derive(Clone, Copy, PartialEq, Eq, Debug)]
pub struct UnusedKind(pub u32);

impl fmt::Display for UnusedKind {
    ghost output = { λ e. Some (unused_text e) };

    fn fmt<W: fmt::Write>(&self, f: &mut fmt::Formatter<W>) -> fmt::Result {
        write!(f, "no kind of word has the number {}", self.0)
    }
}

impl Error for UnusedKind {}

// The kind with a number, from 1 to 14.
impl TryFrom<u32> for Kind {
    type Error = UnusedKind;

    ghost try_from_gives = { KindNamed };

    fn try_from(number: u32) -> Result<Kind, UnusedKind> {
        match number {
            1 => Ok(Kind::True),
            2 => Ok(Kind::False),
            3 => Ok(Kind::Var),
            4 => Ok(Kind::Not),
            5 => Ok(Kind::And),
            6 => Ok(Kind::Or),
            7 => Ok(Kind::Nil),
            8 => Ok(Kind::Set),
            9 => Ok(Kind::Clear),
            10 => Ok(Kind::Both),
            11 => Ok(Kind::When),
            12 => Ok(Kind::Head),
            13 => Ok(Kind::On),
            14 => Ok(Kind::Part),
            _ => Err(UnusedKind(number)),
        }
    }
}

impl Kind {
    // The word of this kind with a load.
    pub fn word(self, load: u32) -> u32
        requires { load < 2 ^ 28 }
        ensures { result ≡ word self load }
    {
        (self as u32) << 28 | load
    }
}

// The kind of a word; none where its number is 0 or 15. No `TryFrom`, since a word is more than its kind.
pub fn kind_of(word: u32) -> Option<Kind>
    ensures { result ≡ kind_of word }
{
    Kind::try_from(word >> 28).ok()
}

// The load of a word.
pub fn load_of(word: u32) -> u32
    ensures { result ≡ load_of word }
{
    word % 0x1000_0000
}

// Kinds and loads make words, and words are made of their kinds and loads.
pub fn words_join_and_split()
    ensures { WordLaws }
{}
