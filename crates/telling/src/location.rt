// Where a word of a task stands.
ghost use Rattle.std.specs.Prelude.{◌≡◌, Some};
ghost use Rattle.telling.specs.Locations.{spot_behind, spot_at, location_text};
ghost use Rattle.telling.specs.Reasons.{part_named, part_name_text};

use std::fmt;
use words::kind::{Kind, kind_of, load_of};

// How many parts begin before a word, and how many words of the last of them still come there.
#[derive(Clone, Copy)]
struct Spot {
    parts: u32,
    left: u32,
}

impl Spot {
    // The spot of the next word.
    fn behind(self, word: u32) -> Spot
        ensures { result ≡ spot_behind self word }
    {
        if self.left > 0 {
            return Spot {
                parts: self.parts,
                left: self.left - 1,
            };
        }
        match kind_of(word) {
            Some(Kind::Part) => Spot {
                parts: self.parts.saturating_add(1),
                left: load_of(word),
            },
            _ => self,
        }
    }
}

// The spot of the word at the place. The words before it have no fault, so each PART there says how long its part is.
fn spot_of(words: &[u32], place: u32) -> Spot
    ensures { result ≡ spot_at words.now place }
{
    let mut spot = Spot { parts: 0, left: 0 };
    for word in words.get(..place as usize).unwrap_or(words) {
        spot = spot.behind(*word);
    }
    spot
}

// Which part of a task: the goal, or a part of the operator of that number.
#[derive(Clone, Copy)]
enum PartName {
    Goal,
    Precondition(u32),
    Effect(u32),
}

// The part of that number. Parts are counted from 0: the goal, then the precondition and the effect of each operator in
// turn.
impl From<u32> for PartName {
    ghost from_gives = { λ number r. r ≡ part_named number };

    fn from(number: u32) -> PartName {
        let operator = number.saturating_sub(1) / 2;
        if number == 0 {
            PartName::Goal
        } else if number % 2 == 1 {
            PartName::Precondition(operator)
        } else {
            PartName::Effect(operator)
        }
    }
}

impl fmt::Display for PartName {
    ghost output = { λ part. Some (part_name_text part) };

    fn fmt<W: fmt::Write>(&self, f: &mut fmt::Formatter<W>) -> fmt::Result {
        match self {
            PartName::Goal => f.write_str("the goal"),
            PartName::Precondition(operator) => write!(
                f,
                "the precondition of operator {operator}"
            ),
            PartName::Effect(operator) => write!(f, "the effect of operator {operator}"),
        }
    }
}

// Tells where the word at the place stands, in a task whose words before it have no fault.
#[derive(Clone, Copy)]
pub struct Location<'a> {
    pub words: &'a [u32],
    pub place: u32,
}

impl fmt::Display for Location<'_> {
    ghost output = { λ location. Some (location_text location.words.now location.place) };

    fn fmt<W: fmt::Write>(&self, f: &mut fmt::Formatter<W>) -> fmt::Result {
        let Spot { parts, left } = spot_of(self.words, self.place);
        if self.place as usize >= self.words.len() {
            f.write_str("behind the last word")
        } else if self.place == 0 {
            f.write_str("where the HEAD stands")
        } else if left > 0 {
            write!(f, "in {}", PartName::from(parts.saturating_sub(1)))
        } else if parts == 0 {
            f.write_str("among the ON words, or where the goal begins")
        } else {
            write!(f, "where {} begins", PartName::from(parts))
        }
    }
}
