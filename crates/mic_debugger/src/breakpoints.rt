//! The byte addresses at which a session stops.

ghost use Rattle.std.specs.Prelude.{◌≡◌, ◌<◌, ◌==◌, ◌&&◌, []};
ghost use Rattle.std.specs.List.{list_any};
ghost use Rattle.mic_debugger.specs.Plans.{is_full_for, with_break, without_break};

use arrayvec::ArrayVec;
use std::marker::Model;

/// The most breakpoints.
pub const MOST_BREAKS: usize = 64;

/// At most 64 byte addresses, none of them twice.
#[derive(Drop)]
pub struct Breakpoints {
    held: ArrayVec<u32, 64>,
}

impl Model for Breakpoints {
    ghost use Rattle.std.specs.Prelude.{List, ℕ};

    ghost Value = { List ℕ };

    ghost view = { λ b. b.held.items };
}

impl Breakpoints {
    pub fn new() -> Breakpoints
        ensures { result ≡ [] }
    {
        Breakpoints {
            held: ArrayVec::new(),
        }
    }

    pub fn as_slice(&self) -> &[u32]
        ensures { result.now ≡ self.now }
    {
        self.held.as_slice()
    }

    fn has(&self, at: u32) -> bool
        ensures { result ≡ list_any (λ a. a == at) self.now }
    {
        self.held.as_slice().iter().any(|place| *place == at)
    }

    /// Whether this address would be one too many.
    pub fn is_full_for(&self, at: u32) -> bool
        ensures { result ≡ is_full_for self.now at }
    {
        self.held.len() == MOST_BREAKS && !self.has(at)
    }

    /// Sets a breakpoint where there is room for it.
    pub fn set(&mut self, at: u32)
        ensures { self.new ≡ with_break self.old at }
    {
        if !self.has(at) && self.held.len() < MOST_BREAKS {
            self.held.push(at);
        }
    }

    /// Removes the breakpoint at an address, if there is one.
    pub fn clear(&mut self, at: u32)
        ensures { self.new ≡ without_break self.old at }
    {
        remove(&mut self.held, at);
    }
}

fn remove(held: &mut ArrayVec<u32, 64>, at: u32)
    ensures { held.new.items ≡ without_break held.old.items at }
{
    held.retain(|place| *place != at);
}
