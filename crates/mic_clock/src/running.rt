//! What a board keeps besides its machine, its store and its bus.

ghost use Rattle.std.specs.Prelude.{◌≡◌};
ghost use Rattle.mic_clock.specs.Parts.{counts_of};

use crate::counting::DRIFT;
use crate::counts::{Boundary, Counts};
use crate::end::End;

/// What each cycle changes and tests. An instruction's turns work on a copy of it, so that it stays in registers.
#[derive(Clone, Copy)]
pub struct Running {
    /// Clocked cycles, stalls included.
    pub cycles: u64,
    pub end: Option<End>,
}

/// What else is counted.
#[derive(Clone, Copy)]
pub struct Tally {
    /// The cycles at which the run is adrift, if it comes to no boundary before.
    pub limit: u64,
    pub instructions: u64,
    pub stalls: u64,
    pub boundary: Option<Boundary>,
}

impl Running {
    /// At reset.
    pub const START: Running = Running {
        cycles: 0,
        end: None,
    };
}

impl Tally {
    /// At reset.
    pub const START: Tally = Tally {
        limit: DRIFT,
        instructions: 0,
        stalls: 0,
        boundary: None,
    };
}

pub fn counts_in(running: &Running, tally: &Tally) -> Counts
    ensures { result ≡ counts_of running.now tally.now }
{
    Counts {
        cycles: running.cycles,
        instructions: tally.instructions,
        stalls: tally.stalls,
        boundary: tally.boundary,
    }
}
