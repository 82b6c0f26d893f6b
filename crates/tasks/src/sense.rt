// The sense of each kind of word, as the table of kinds has it.
ghost use Rattle.std.specs.Prelude.{◌≡◌};
ghost use Rattle.reading.specs.Senses.{gives, load_sense, part_sort};

use reading::section::{Load, Section, Sort};
use words::kind::Kind;

// The sort of the value that a word gives, if it gives one.
pub fn sort_given(kind: Kind) -> Option<Sort>
    ensures { result ≡ gives kind }
{
    match kind {
        Kind::True | Kind::False | Kind::Var | Kind::Not | Kind::And | Kind::Or => {
            Some(Sort::Formula)
        }
        Kind::Nil | Kind::Set | Kind::Clear | Kind::Both | Kind::When => Some(Sort::Effect),
        Kind::Head | Kind::On | Kind::Part => None,
    }
}

// What the word's load is.
pub fn load_sense(kind: Kind) -> Load
    ensures { result ≡ load_sense kind }
{
    match kind {
        Kind::True | Kind::False | Kind::Not | Kind::And | Kind::Or => Load::Zero,
        Kind::Nil | Kind::Both | Kind::When => Load::Zero,
        Kind::Var | Kind::Set | Kind::Clear | Kind::On => Load::Variable,
        Kind::Head | Kind::Part => Load::Number,
    }
}

// The sort of the one value that a part gives.
pub fn sort_of_part(section: Section) -> Sort
    ensures { result ≡ part_sort section }
{
    match section {
        Section::Goal | Section::Precondition => Sort::Formula,
        Section::Effect => Sort::Effect,
    }
}
