//! Which calls of an object in memory fail, by their numbers.

ghost use Rattle.std.specs.Prelude.{◌≡◌, ◌≤◌, ◌↔◌, IsTrue, Contains};
ghost use Rattle.mic_base.specs.Causes.{Rose};
ghost use Rattle.mic_base.specs.Numbering.{next_number};

/// Calls numbered from 1, of which some fail.
#[derive(Drop)]
pub(crate) struct Calls {
    failing: Vec<u64>,
    made: u64,
    faults: u64,
}

impl Calls {
    pub(crate) fn new(failing: Vec<u64>) -> Calls
        ensures { result ≡ record { failing = failing; made = 0; faults = 0 } }
    {
        Calls {
            failing,
            made: 0,
            faults: 0,
        }
    }

    /// Counts a call, and returns whether it is one of those that fail.
    pub(crate) fn is_failing(&mut self) -> bool
        ensures failing { IsTrue result ↔ Contains self.old.failing.items (next_number self.old.made) }
        ensures counted { self.new ≡ record self.old { made = next_number self.old.made } }
    {
        self.made = self.made.saturating_add(1);
        self.failing.contains(&self.made)
    }

    pub(crate) fn fail(&mut self)
        ensures later { self.old.faults ≤ self.new.faults }
        ensures rose { Rose self.old.faults self.new.faults }
        ensures same { self.new ≡ record self.old { faults = self.new.faults } }
    {
        self.faults = self.faults.saturating_add(1);
    }
}
