// A table of examples: it tries them, and tells of each whether it came out as expected.
ghost use Rattle.std.specs.Prelude.{◌≡◌, ◌+◌, ◌%◌, ◌^◌, length, OnOk, if◌then◌else◌};

use std::alloc::Global;
use std::io;

// An example that is tried, and told of in a table by one line.
pub trait Example {
    fn try_on(&self, table: &mut Table<'_>) -> io::Result<()>
        ensures { OnOk result (table.new.tried ≡ (table.old.tried + 1) % 2 ^ 32) };
}

// How many examples were tried, and how many came out otherwise than expected; both counts wrap.
#[derive(Drop)]
pub struct Table<'a> {
    rt: &'a HostRuntime,
    tried: u32,
    different: u32,
}

impl<'a> Table<'a> {
    pub fn new(rt: &'a HostRuntime) -> Table<'a>
        ensures none_tried { result.tried ≡ 0 }
        ensures none_different { result.different ≡ 0 }
    {
        Table {
            rt,
            tried: 0,
            different: 0,
        }
    }

    // The heap on which examples are made.
    pub fn heap(&self) -> Global {
        self.rt.alloc()
    }

    // Tries all of them, in their order.
    pub fn all<E: Example>(&mut self, examples: &[E]) -> io::Result<()>
        ensures { OnOk result (self.new.tried ≡ (self.old.tried + length examples.now) % 2 ^ 32) }
    {
        for example in examples {
            example.try_on(self)?;
        }
        Ok(())
    }

    // One line of an example, which is counted even if the line cannot be printed.
    pub fn line(&mut self, name: &str, found: &str, as_expected: bool) -> io::Result<()>
        ensures tried { self.new.tried ≡ (self.old.tried + 1) % 2 ^ 32 }
        ensures different { self.new.different ≡ (if as_expected then self.old.different else ((self.old.different + 1) % 2 ^ 32)) }
    {
        self.tried = self.tried.wrapping_add(1);
        if as_expected {
            println!(self.rt; "{name}: {found}, as expected")
        } else {
            self.different = self.different.wrapping_add(1);
            println!(self.rt; "{name}: {found}, NOT as expected")
        }
    }

    // The last line.
    pub fn end(&self) -> io::Result<()> {
        let tried = self.tried;
        let different = self.different;
        println!(self.rt; "{tried} examples, {different} not as expected")
    }
}
