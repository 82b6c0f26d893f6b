// How far the words of a task are read: what may come next, and what was read so far.
ghost use Rattle.std.specs.Prelude.{◌≡◌, ◌^◌, ◌<◌, ◌≤◌, not, ◌&&◌, ◌∷◌, Some, None, Ok, Err, ◌==◌};
ghost use Rattle.reading.specs.Senses.{gives, part_sort};
ghost use Rattle.reading.specs.Rules.{alone, complete};
ghost use Rattle.reading.specs.Turns.{at_head, at_on, at_part, in_part, operators_after, next_section};
ghost use Rattle.tasks.specs.Progress.{turn_now, ReadAt, Bounded, in_part_refusal, ValueRead, WordRead};

use crate::operands::{is_alone_with, take_operands};
use crate::sense::{load_sense, sort_given, sort_of_part};
use reading::section::{Load, Section, Sort};
use waiting::Waiting;
use words::fault::Refusal;
use words::kind::{Kind, kind_of, load_of};

// What kind of word comes next.
#[derive(Clone, Copy)]
pub enum Stage {
    // the HEAD
    Head,
    // an ON, or the goal's PART
    On,
    // the PART of a section
    Part,
    // a word of a section's part
    Inside,
}

// The next word of the task: its kind and its load, and how many words follow it.
#[derive(Clone, Copy)]
pub struct NextWord {
    pub kind: Kind,
    pub load: u32,
    pub rest: usize,
}

// Fields that a stage does not use keep their values: as an enum with data, each step would move the values that wait.
#[derive(Drop)]
pub struct Progress {
    pub stage: Stage,
    // the section whose part comes or is read
    pub section: Section,
    pub width: u32,
    pub initial: u64,
    // the lowest variable that the next ON may have
    pub low: u32,
    // how many operators are whole
    pub operators: u32,
    // how many words of the part are to come
    pub left: u32,
    // the sorts of the values that wait
    pub waiting: Waiting<Sort>,
}

impl Progress {
    pub fn new() -> Progress
        ensures { turn_now result ≡ at_head }
    {
        Progress {
            stage: Stage::Head,
            section: Section::Goal,
            width: 0,
            initial: 0,
            low: 0,
            operators: 0,
            left: 0,
            waiting: Waiting::new(Sort::Formula),
        }
    }

    // The HEAD: the number of variables.
    fn read_head(&mut self, next: NextWord) -> Result<(), Refusal>
        ensures { ReadAt at_head next.rest next.kind next.load (turn_now self.new) result }
    {
        let NextWord { kind, load, .. } = next;
        let Kind::Head = kind else {
            return Err(Refusal::WrongWord);
        };
        if load == 0 || load > 64 {
            return Err(Refusal::WrongWidth);
        }
        self.width = load;
        self.initial = 0;
        self.low = 0;
        self.stage = Stage::On;
        Ok(())
    }

    // An ON: one variable more that is true at the start, above the others.
    fn read_on(&mut self, next: NextWord) -> Result<(), Refusal>
        requires { Bounded (at_on self.old.width self.old.initial self.old.low) }
        ensures { ReadAt (at_on self.old.width self.old.initial self.old.low) next.rest Kind.On next.load (turn_now self.new) result }
    {
        let load = next.load;
        if load < self.low {
            return Err(Refusal::WrongWord);
        }
        if load >= self.width {
            return Err(Refusal::VariableOutside);
        }
        self.initial += 1 << load;
        self.low = load + 1;
        self.stage = Stage::On;
        Ok(())
    }

    // The PART of a section: its load is the number of words in the part.
    fn read_part(&mut self, section: Section, next: NextWord) -> Result<(), Refusal>
        ensures { ReadAt (at_part self.old.width self.old.initial self.old.operators section) next.rest Kind.Part next.load (turn_now self.new) result }
    {
        let NextWord { load, rest, .. } = next;
        if load == 0 || load > 4096 {
            return Err(Refusal::TooLong);
        }
        if let Section::Precondition = section
            && self.operators >= 512
        {
            return Err(Refusal::TooLong);
        }
        if load as usize > rest {
            return Err(Refusal::WordMissing);
        }
        self.section = section;
        self.left = load;
        self.waiting = Waiting::new(Sort::Formula);
        self.stage = Stage::Inside;
        Ok(())
    }

    // The part's last word is read: the next section's part comes.
    fn end_part(&mut self)
        requires { self.old.operators ≤ 512 }
        ensures { turn_now self.new ≡ at_part self.old.width self.old.initial (operators_after self.old.section self.old.operators) (next_section self.old.section) }
    {
        self.stage = Stage::Part;
        match self.section {
            Section::Goal => self.section = Section::Precondition,
            Section::Precondition => self.section = Section::Effect,
            Section::Effect => {
                self.section = Section::Precondition;
                self.operators += 1;
            }
        }
    }

    // A word of a part.
    fn read_inside(&mut self, next: NextWord) -> Result<(), Refusal>
        requires { (1 ≤ self.old.left) × (self.old.operators ≤ 512) }
        ensures { ReadAt (in_part self.old.width self.old.initial self.old.operators self.old.section self.old.left self.old.waiting) next.rest next.kind next.load (turn_now self.new) result }
    {
        let sort = check_word(self.width, self.section, next.kind, next.load)?;
        self.read_value(next.kind, sort)?;
        self.left -= 1;
        self.stage = Stage::Inside;
        if self.left == 0 {
            self.end_part();
        }
        Ok(())
    }

    // Whether this is the part's last word and would not leave one value alone, of the part's sort.
    fn ends_badly(&self, sort: Sort) -> bool
        ensures { result ≡ (self.now.left == 1 && not (alone (part_sort self.now.section) (sort ∷ self.now.waiting))) }
    {
        self.left == 1 && !is_alone_with(&self.waiting, sort, sort_of_part(self.section))
    }

    // Takes the operands of a word off and puts its value on.
    fn read_value(&mut self, kind: Kind, sort: Sort) -> Result<(), Refusal>
        ensures { ValueRead self.old kind sort self.new result }
    {
        take_operands(&mut self.waiting, kind)?;
        if self.ends_badly(sort) {
            return Err(Refusal::WrongOperand);
        }
        if self.waiting.is_full() {
            return Err(Refusal::TooManyWaiting);
        }
        self.waiting.put(sort);
        Ok(())
    }

    // The next word.
    pub fn read(&mut self, next: NextWord) -> Result<(), Refusal>
        requires { Bounded (turn_now self.old) }
        ensures { ReadAt (turn_now self.old) next.rest next.kind next.load (turn_now self.new) result }
    {
        match self.stage {
            Stage::Head => self.read_head(next),
            Stage::On => self.read_after_head(next),
            Stage::Part => {
                let Kind::Part = next.kind else {
                    return Err(Refusal::WrongWord);
                };
                self.read_part(self.section, next)
            }
            Stage::Inside => self.read_inside(next),
        }
    }

    // Behind the HEAD: an ON, or the goal's PART.
    fn read_after_head(&mut self, next: NextWord) -> Result<(), Refusal>
        requires { Bounded (at_on self.old.width self.old.initial self.old.low) }
        ensures { ReadAt (at_on self.old.width self.old.initial self.old.low) next.rest next.kind next.load (turn_now self.new) result }
    {
        match next.kind {
            Kind::On => self.read_on(next),
            Kind::Part => {
                self.operators = 0;
                self.read_part(Section::Goal, next)
            }
            _ => Err(Refusal::WrongWord),
        }
    }

    // One word, where `rest` words follow it.
    pub fn read_word(&mut self, rest: usize, word: u32) -> Result<(), Refusal>
        requires { Bounded (turn_now self.old) }
        ensures { WordRead (turn_now self.old) rest word (turn_now self.new) result }
    {
        let Some(kind) = kind_of(word) else {
            return Err(Refusal::WrongWord);
        };
        self.read(NextWord {
            kind,
            load: load_of(word),
            rest,
        })
    }

    // Whether the words may end here.
    pub fn is_complete(&self) -> bool
        ensures { result ≡ complete (turn_now self.now) }
    {
        match (self.stage, self.section) {
            (Stage::Part, Section::Precondition) => true,
            _ => false,
        }
    }
}

// Whether a word may stand in the part of a section, and its load fits.
fn check_word(width: u32, section: Section, kind: Kind, load: u32) -> Result<Sort, Refusal>
    ensures { elim result [ Ok sort ↦ (gives kind ≡ Some sort) × (in_part_refusal width section kind load ≡ None) | Err why ↦ in_part_refusal width section kind load ≡ Some why ] }
{
    let Some(sort) = sort_given(kind) else {
        return Err(Refusal::WrongWord);
    };
    if let Sort::Effect = sort
        && sort_of_part(section) == Sort::Formula
    {
        return Err(Refusal::WrongWord);
    }
    match load_sense(kind) {
        Load::Zero if load != 0 => Err(Refusal::WrongWord),
        Load::Variable if load >= width => Err(Refusal::VariableOutside),
        _ => Ok(sort),
    }
}
