//! One clocked cycle, as it is shown.

ghost use Rattle.std.specs.Prelude.{◌≡◌, ◌<◌, is_some};
ghost use Rattle.mic_watched.specs.Cycles.{boundary_in, cycle_on};

use mic_clock::{Board, Clocked, Computed, Counts, Drive, Registers};

/// What one clocked cycle showed.
#[derive(Debug, Drop)]
pub struct Cycle {
    /// The address of its word.
    pub mpc: u16,
    /// What drove the operand buses.
    pub drive: Drive,
    /// What left the ALU and the shifter.
    pub computed: Computed,
    /// The counts after its edge.
    pub counts: Counts,
    /// The registers after its edge.
    pub registers: Registers,
    /// The byte address of the instruction whose boundary it reached.
    pub boundary: Option<u32>,
}

/// The last cycle of a board, whose word stands at `mpc`. Inlined, so that what a watcher does not look at is not made.
#[inline(always)]
pub fn cycle_of<M: Clocked>(board: &Board<M>, mpc: u16) -> Cycle
    ensures is { result ≡ cycle_on M.state M.meaning mpc board.now }
    ensures next { result.registers.mpc < 512 }
{
    let counts = board.counts();
    Cycle {
        mpc,
        drive: board.last_drive(),
        computed: board.last_computed(),
        counts,
        registers: board.registers(),
        boundary: boundary_in(&counts),
    }
}

/// Whether the last cycle of a board reached a boundary.
#[inline(always)]
pub(crate) fn reached_boundary<M: Clocked>(board: &Board<M>) -> bool
    ensures { result ≡ is_some (boundary_in board.now.counts) }
{
    boundary_in(&board.counts()).is_some()
}

/// The address of the last boundary, where the last cycle reached it.
fn boundary_in(counts: &Counts) -> Option<u32>
    ensures { result ≡ boundary_in counts.now }
{
    match counts.boundary {
        Some(boundary) if boundary.cycles == counts.cycles => Some(boundary.at),
        _ => None,
    }
}
