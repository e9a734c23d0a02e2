//! The trace of a run: the lines of each cycle, put to `err` as it is clocked.

ghost use Rattle.std.specs.Prelude.{ℕ};
ghost use Rattle.cli_watchers.specs.Common.{HasCause, Places, demands_of};
ghost use Rattle.cli_watchers.specs.Lines.{AreLinesOf, IsBoundaryLine, PutsOneAfter, Traced};

use crate::lines::{cycle_line, state_lines};
use crate::names::instruction_text;
use cli_outside::put_after;
use ijvm_verifier::VerifiedImage;
use mal_parser::MalProgram;
use mic_base::{Line, Sink, SinkFailed};
use mic_watched::{Cycle, Watcher};
use store_placement::Placement;

/// Prints each cycle that it sees.
#[derive(Drop)]
pub struct Tracer<'a> {
    pub program: &'a MalProgram,
    pub placement: &'a Placement,
    pub image: &'a VerifiedImage,
    /// Whether the values on the buses are printed too.
    pub buses: bool,
    ghost placed: { Places (demands_of program.now) placement.now },
}

/// Puts the line of a boundary after what was put, if one was reached.
fn put_boundary<E: Sink>(
    said: Result<(), SinkFailed>,
    err: &mut E,
    image: &VerifiedImage,
    boundary: Option<u32>,
) -> Result<(), SinkFailed>
    ensures puts { PutsOneAfter (IsBoundaryLine image.now.image boundary) said (E.held err.old) result (E.held err.new) }
    ensures cause { (before : ℕ) → HasCause before (E.faults err.old) said → HasCause before (E.faults err.new) result }
{
    match boundary {
        None => said,
        Some(at) => {
            let mut line = Line::addressed("at ", at);
            line.text(" ");
            let said = put_after(said, err, line.bytes());
            let said = put_after(said, err, instruction_text(image, at).bytes());
            put_after(said, err, b"\n")
        }
    }
}

impl<'a> Watcher for Tracer<'a> {
    ghost Kept = { Traced };

    ghost kept = { λ t. record { program = t.program.now; addresses = t.placement.now; image = t.image.now.image; buses = t.buses } };

    ghost keeps = { λ t c. t };

    ghost Prints = { AreLinesOf };

    fn see<E: Sink>(&mut self, cycle: &Cycle, err: &mut E) -> Result<(), SinkFailed> {
        let said = err.put(cycle_line(self.program, self.placement, cycle).bytes());
        let said = put_after(said, err, state_lines(self.buses, cycle).bytes());
        put_boundary(said, err, self.image, cycle.boundary)
    }
}
