//! The turns of a board, over its parts.

ghost use Rattle.std.specs.Prelude.{◌≡◌, ◌≤◌, ◌+◌, ◌^◌, if◌then◌else◌, None, true, false};
ghost use Rattle.mic_clock.specs.Board.{tick_of, IsTurned, IsCutByFault, GoesOn, IsLegRun, LegIsCutByRead, LegIsCutByWrite, ComesInTime, IsTurnedInside, IsRunInside, IsStill};
ghost use Rattle.mic_clock.specs.Edge.{LetsBytesWait};
ghost use Rattle.mic_clock.specs.Parts.{counts_of, board_of, AreParts, ChangesByTurn};
ghost use Rattle.mic_clock.specs.Run.{word_at};

use crate::clocked::Clocked;
use crate::counting::{count, end_before, end_here, fault_end};
use crate::cycle::{clock, clock_inside};
use crate::end::Tick;
use crate::running::{Running, Tally};
use console_port::Bus;
use mic_base::{Sink, Source};
use micro_word::Store;

/// What a clocked cycle did.
#[inline(always)]
fn ticked(stalled: bool) -> Tick
    ensures { result ≡ (if stalled then Tick.Stalled else Tick.Clocked) }
{
    if stalled {
        Tick::Stalled
    } else {
        Tick::Clocked
    }
}

/// One turn without the test of the bound: an end that comes before a cycle, or a cycle. Where `tries` says so, it is first
/// tried as one that needs neither the source nor the sink.
#[inline(always)]
#[tactic(auto, using(crate::proofs::Rules::ends_as_ruled, crate::proofs::Rules::ended_as_ruled, crate::proofs::Rules::counted_as_ruled))]
pub fn turn_once<M: Clocked, S: Source, K: Sink>(
    tries: bool,
    machine: &mut M,
    store: &Store,
    bus: &mut Bus,
    running: &mut Running,
    tally: &mut Tally,
    source: &mut S,
    sink: &mut K,
) -> Tick
    requires parts { AreParts M.meaning store.now running.old tally.old }
    requires cycles { running.old.cycles ≤ 2 ^ 62 + 4096 }
    ensures parts { AreParts M.meaning store.now running.new tally.new }
    ensures turn { IsTurned M.state M.meaning (S.left source.old) (K.held sink.old) (board_of M.seen machine.old store.now bus.old running.old tally.old)
        (S.left source.new) (K.held sink.new) (board_of M.seen machine.new store.now bus.new running.new tally.new) None }
    ensures cut { IsCutByFault M.state M.meaning (S.left source.old) (K.held sink.old) (board_of M.seen machine.old store.now bus.old running.old tally.old)
        (S.left source.new) (K.held sink.new) (board_of M.seen machine.new store.now bus.new running.new tally.new) }
    ensures tick { result ≡ tick_of (counts_of running.old tally.old) (counts_of running.new tally.new) running.new.end }
    ensures goes_on { GoesOn S.left S.faults K.held K.passed K.faults source.old sink.old (board_of M.seen machine.old store.now bus.old running.old tally.old)
        source.new sink.new (board_of M.seen machine.new store.now bus.new running.new tally.new) }
    ensures changes { ChangesByTurn M.state M.meaning (board_of M.seen machine.old store.now bus.old running.old tally.old)
        (board_of M.seen machine.new store.now bus.new running.new tally.new) }
    ensures waits { LetsBytesWait M.meaning (word_at M.meaning store.now.words (M.state machine.old)) (M.state machine.old)
        (S.left source.old) (K.held sink.old) bus.old sink.old sink.new }
{
    if let Some(end) = running.end {
        return Tick::Ended(end);
    }
    if let Some(end) = end_before(machine, running, tally) {
        end_here(running, tally, end);
        return Tick::Ended(end);
    }
    match clock(tries, machine, store, bus, source, sink) {
        Ok(stalled) => {
            count(running, tally, stalled, machine);
            ticked(stalled)
        }
        Err(fault) => {
            let end = fault_end(fault);
            running.end = Some(end);
            Tick::Ended(end)
        }
    }
}

/// One turn, where `clock_inside` does its cycle and no end comes before it. Returns whether it was done; if not, the board
/// is as it was.
#[inline(always)]
pub fn turn_inside<M: Clocked>(
    machine: &mut M,
    store: &Store,
    bus: &mut Bus,
    running: &mut Running,
    tally: &mut Tally,
) -> bool
    requires parts { AreParts M.meaning store.now running.old tally.old }
    requires running { (running.old.end ≡ None) × (running.old.cycles ≤ 2 ^ 62 + 4096) }
    ensures parts { AreParts M.meaning store.now running.new tally.new }
    ensures turned { result ≡ true → IsTurnedInside M.state M.meaning (board_of M.seen machine.old store.now bus.old running.old tally.old)
        (board_of M.seen machine.new store.now bus.new running.new tally.new) }
    ensures still { result ≡ false → IsStill M.state (board_of M.seen machine.old store.now bus.old running.old tally.old)
        (board_of M.seen machine.new store.now bus.new running.new tally.new) }
{
    if end_before(machine, running, tally).is_some() {
        return false;
    }
    match clock_inside(machine, store, bus) {
        Some(stalled) => {
            count(running, tally, stalled, machine);
            true
        }
        None => false,
    }
}

/// Turns below the bound, as long as `turn_inside` does them.
#[inline(always)]
pub fn turns_inside<M: Clocked>(
    machine: &mut M,
    store: &Store,
    bus: &mut Bus,
    running: &mut Running,
    tally: &mut Tally,
    bound: u64,
)
    requires parts { AreParts M.meaning store.now running.old tally.old }
    requires running { running.old.end ≡ None }
    requires cycles { (bound ≤ 2 ^ 62) × (running.old.cycles ≤ 2 ^ 62 + 2048) }
    ensures parts { AreParts M.meaning store.now running.new tally.new }
    ensures run { IsRunInside M.state M.meaning (board_of M.seen machine.old store.now bus.old running.old tally.old)
        (board_of M.seen machine.new store.now bus.new running.new tally.new) bound }
{
    let mut here = Running {
        cycles: running.cycles,
        end: None,
    };
    let mut goes_on = true;
    'turns: while goes_on && here.cycles < bound {
        goes_on = turn_inside(machine, store, bus, &mut here, tally);
    }
    running.cycles = here.cycles;
}

/// Turns up to the next boundary, or up to the end.
#[inline(always)]
pub fn turn_to_boundary<M: Clocked, S: Source, K: Sink>(
    machine: &mut M,
    store: &Store,
    bus: &mut Bus,
    running: &mut Running,
    tally: &mut Tally,
    source: &mut S,
    sink: &mut K,
)
    requires parts { AreParts M.meaning store.now running.old tally.old }
    requires ready { (running.old.end ≡ None) × (running.old.cycles ≤ 2 ^ 62 + 2048) }
    ensures parts { AreParts M.meaning store.now running.new tally.new }
    ensures run { IsLegRun M.state M.meaning (S.left source.old) (K.held sink.old) (board_of M.seen machine.old store.now bus.old running.old tally.old)
        (S.left source.new) (K.held sink.new) (board_of M.seen machine.new store.now bus.new running.new tally.new) }
    ensures read { LegIsCutByRead M.state M.meaning (S.left source.old) (K.held sink.old) (board_of M.seen machine.old store.now bus.old running.old tally.old)
        (S.left source.new) (K.held sink.new) (board_of M.seen machine.new store.now bus.new running.new tally.new) }
    ensures write { LegIsCutByWrite M.state M.meaning (S.left source.old) (K.held sink.old)
        (board_of M.seen machine.old store.now bus.old running.old tally.old)
        (S.left source.new) (K.held sink.new) (board_of M.seen machine.new store.now bus.new running.new tally.new) }
    ensures growth { running.new.cycles ≤ running.old.cycles + 1024 }
    ensures goes_on { GoesOn S.left S.faults K.held K.passed K.faults source.old sink.old (board_of M.seen machine.old store.now bus.old running.old tally.old)
        source.new sink.new (board_of M.seen machine.new store.now bus.new running.new tally.new) }
    ensures in_time { ComesInTime M.state M.meaning (board_of M.seen machine.old store.now bus.old running.old tally.old)
        (board_of M.seen machine.new store.now bus.new running.new tally.new) }
{
    let mut here = Running {
        cycles: running.cycles,
        end: None,
    };
    turn_once(true, machine, store, bus, &mut here, tally, source, sink);
    'inside: while here.end.is_none() && !machine.at_boundary() {
        turn_once(true, machine, store, bus, &mut here, tally, source, sink);
    }
    running.cycles = here.cycles;
    running.end = here.end;
}
