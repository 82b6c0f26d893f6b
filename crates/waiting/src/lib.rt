#![tactic(auto)]
// Values that wait for a later word to take them, in a plain array: the newest is taken first.
ghost use Rattle.std.specs.Prelude.{◌≡◌, ◌≤◌, ◌==◌, [], length, slice_get};
ghost use Rattle.waiting.specs.Waits.{put_on, newest, older};

use std::marker::Model;

// The values that wait are those from `top` on, the newest first. A plain array, since the core takes no memory of its own.
#[derive(Drop)]
pub struct Waiting<T> {
    values: [T; 64],
    top: usize,
}

// Contracts see the list of the values that wait.
impl<T> Model for Waiting<T> {
    ghost use Rattle.std.specs.Prelude.{◌≡◌, ◌≤◌, List, length, drop};

    ghost Value = { List T };

    ghost view = { λ w. drop w.top w.values };

    ghost invariant = { λ w. (length w.values ≡ 64) × (w.top ≤ 64) };
}

impl<T: Copy> Waiting<T> {
    // No value waits; the array is filled with one that is never taken.
    pub fn new(filler: T) -> Waiting<T>
        ensures { result ≡ [] }
    {
        Waiting {
            values: [filler; 64],
            top: 64,
        }
    }

    pub fn is_empty(&self) -> bool
        ensures { result ≡ (length self.now == 0) }
    {
        self.top == 64
    }

    pub fn is_full(&self) -> bool
        ensures full { result ≡ (length self.now == 64) }
        ensures few { length self.now ≤ 64 }
    {
        self.top == 0
    }

    // One value more waits, if there is room.
    pub fn put(&mut self, value: T)
        ensures { self.new ≡ put_on self.old value }
    {
        if self.top > 0 {
            self.top -= 1;
            self.values[self.top] = value;
        }
    }

    // The newest value, which then waits no more, if one waits.
    pub fn pop(&mut self) -> Option<T>
        ensures value { result ≡ slice_get self.old 0 }
        ensures left { self.new ≡ older self.old }
        ensures few { length self.old ≤ 64 }
    {
        let value = *self.values.get(self.top)?;
        self.top += 1;
        Some(value)
    }

    // The newest value, which then waits no more; another value if none waits. A walk over words that are no part's can come to
    // this: it goes on with that value, where an `Option` would be unwrapped at each call.
    pub fn take(&mut self, missing: T) -> T
        ensures value { result ≡ newest missing self.old }
        ensures left { self.new ≡ older self.old }
        ensures few { length self.old ≤ 64 }
    {
        self.pop().unwrap_or(missing)
    }
}
