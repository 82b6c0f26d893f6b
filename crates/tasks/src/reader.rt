// A cursor over the words of a task, which goes from part to part.
ghost use Rattle.std.specs.Prelude.{◌≡◌, ◌+◌, ◌≤◌, length, take, drop, slice_index};
ghost use Rattle.words.specs.Words.{load_of};

use words::kind::load_of;

// The words of a part; `place` is that of the first one.
#[derive(Clone, Copy)]
pub struct Span<'a> {
    pub words: &'a [u32],
    pub place: u32,
}

// A place in the caller's words: they are borrowed and not copied, and no memory but the caller's is used.
#[derive(Clone, Copy)]
pub struct Reader<'a> {
    words: &'a [u32],
    at: usize,
}

impl<'a> Reader<'a> {
    // A cursor at the place of a PART.
    pub fn new(words: &'a [u32], at: usize) -> Reader<'a>
        ensures words { result.words.now ≡ words.now }
        ensures at { result.at ≡ at }
    {
        Reader { words, at }
    }

    // The words of the part whose PART stands at the cursor, which moves behind them.
    pub fn part(&mut self) -> Span<'a>
        requires fits { self.old.at + 1 + load_of (slice_index self.old.words.now self.old.at) ≤ length self.old.words.now }
        requires few { length self.old.words.now ≤ 16384 }
        ensures part { result.words.now ≡ take (load_of (slice_index self.old.words.now self.old.at)) (drop (self.old.at + 1) self.old.words.now) }
        ensures place { result.place ≡ self.old.at + 1 }
        ensures at { self.new.at ≡ self.old.at + 1 + load_of (slice_index self.old.words.now self.old.at) }
        ensures same { self.new.words.now ≡ self.old.words.now }
    {
        let start = self.at + 1;
        let end = start + load_of(self.words[self.at]) as usize;
        self.at = end;
        Span {
            words: &self.words[start..end],
            place: start as u32,
        }
    }
}
