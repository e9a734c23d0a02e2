//! What a turn counts, and the ends that come before a cycle.

ghost use Rattle.std.specs.Prelude.{◌≡◌, ◌<◌, ◌≤◌, ◌+◌, ◌^◌, Some, IfNone};
ghost use Rattle.mic_clock.specs.Rule.{EndsBefore, CountsEnd};
ghost use Rattle.mic_clock.specs.Board.{IsLimit};
ghost use Rattle.mic_clock.specs.Parts.{CountsOn, counts_of};
ghost use Rattle.mic_clock.specs.Run.{end_by, last_cycles};

use crate::clocked::Clocked;
use crate::counts::Boundary;
use crate::end::End;
use crate::running::{Running, Tally};
use console_port::BusFault;

const HALT: u16 = 0x0FF;

const ERR: u16 = 0x0FE;

/// The number of cycles without a boundary that ends a run.
pub const DRIFT: u64 = 1024;

/// The end by a refusal or a fault.
pub fn fault_end(fault: BusFault) -> End
    ensures { result ≡ end_by fault }
{
    match fault {
        BusFault::ReadFault => End::ReadFault,
        BusFault::WriteFault => End::WriteFault,
        BusFault::StackLimit(_) => End::StackLimit,
        BusFault::OutOfMap(at) => End::OutOfMap(at),
    }
}

/// The end that comes before a cycle, if one does.
#[inline(always)]
pub fn end_before<M: Clocked>(machine: &M, running: &Running, tally: &Tally) -> Option<End>
    requires ordered { last_cycles tally.now.boundary ≤ running.now.cycles }
    requires limit { IsLimit (counts_of running.now tally.now) tally.now.limit }
    ensures rule { EndsBefore (M.meaning.registers (M.state machine.now)).mpc (counts_of running.now tally.now) result }
    ensures room { IfNone result (running.now.cycles < last_cycles tally.now.boundary + 1024) }
{
    let mpc = machine.mpc();
    // The two addresses are neighbours, so that most cycles make one test for both.
    if ERR <= mpc && mpc <= HALT {
        if mpc == HALT {
            return Some(End::Halt);
        }
        return Some(End::Err);
    }
    if tally.limit <= running.cycles {
        return Some(End::Adrift);
    }
    None
}

/// Ends a run before its cycle.
#[inline(always)]
pub fn end_here(running: &mut Running, tally: &mut Tally, end: End)
    requires { tally.old.instructions ≤ 2 ^ 63 }
    ensures counts { CountsEnd (counts_of running.old tally.old) end (counts_of running.new tally.new) }
    ensures end { running.new.end ≡ Some end }
    ensures limit { tally.new.limit ≡ tally.old.limit }
{
    if matches!(end, End::Halt | End::Err) && tally.boundary.is_some() {
        tally.instructions += 1;
    }
    running.end = Some(end);
}

/// Counts a clocked cycle.
#[inline(always)]
pub fn count<M: Clocked>(running: &mut Running, tally: &mut Tally, stalled: bool, machine: &M)
    requires cycles { running.old.cycles ≤ 2 ^ 63 }
    requires instructions { tally.old.instructions ≤ 2 ^ 63 }
    requires stalls { tally.old.stalls ≤ 2 ^ 63 }
    requires limit { IsLimit (counts_of running.old tally.old) tally.old.limit }
    ensures counts { CountsOn M.meaning running.old tally.old stalled (M.state machine.now) running.new tally.new }
    ensures limit { IsLimit (counts_of running.new tally.new) tally.new.limit }
    ensures end { running.new.end ≡ running.old.end }
{
    running.cycles += 1;
    if stalled {
        tally.stalls += 1;
    }
    if machine.at_boundary() {
        if tally.boundary.is_some() {
            tally.instructions += 1;
        }
        tally.boundary = Some(Boundary {
            cycles: running.cycles,
            at: machine.instruction_address(),
            sp: machine.sp(),
            lv: machine.lv(),
        });
        tally.limit = running.cycles + DRIFT;
    }
}
