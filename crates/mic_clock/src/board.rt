//! A machine with its control store and its bus, clocked, counted and ended.

ghost use Rattle.mic_clock.specs.Common.{IsFlushed, Stands, KeepsMemoryAndInput, HasFaultCause, SinkGoesOn};
ghost use Rattle.std.specs.Prelude.{◌≡◌, [], ◌<◌, ◌≤◌, ◌+◌, ◌^◌, ℕ, List, Option, None, Some, Err, IsOk, OnOk, IfErr, IsSome, true, false, length, max};
ghost use Rattle.mic_clock.specs.Edge.{LetsBytesWait};
ghost use Rattle.mic_clock.specs.Run.{MicroRun, start_counts, start_buses, bounded, word_at};
ghost use Rattle.mic_clock.specs.Board.{ShowsAs, IsReset, NoFault, HasEndCause, tick_of, IsTurned, IsCutByFault, IsReached, IsRun, RunIsCutByRead, RunIsCutByWrite, BoundIsCutByWrite, IsLegRun, LegIsCutByRead, LegIsCutByWrite};
ghost use Rattle.mic_clock.specs.Board.{IsBelow, IsNear, AreCounts, EndsInTime, ChangesAtMar, EndsUnwritten, IsOnlyFlushed, GoesOn, IsCountedTurn, KeepsInTime, ComesInTime, TurnIsCut, IsRunInside};

use crate::buses::{Computed, Drive};
use crate::clocked::Clocked;
use crate::counts::Counts;
use crate::end::{End, Tick};
use crate::registers::{Registers, Start};
use crate::running::{Running, Tally, counts_in};
use crate::turning::{turn_once, turn_to_boundary, turns_inside};
use crate::word::MicroWord;
use console_port::{Bus, BusFault};
use mic_base::{Sink, Source};
use micro_word::{Store, word_law};
use std::marker::Model;

/// A machine that is clocked over its control store and its bus, until it ends.
#[derive(Drop)]
pub struct Board<M: Clocked> {
    machine: M,
    store: Store,
    bus: Bus,
    running: Running,
    tally: Tally,
}

impl<M: Clocked> Model for Board<M> {
    ghost use Rattle.mic_clock.specs.View.{BoardView};
    ghost use Rattle.mic_clock.specs.Parts.{board_of, AreParts};

    ghost Value = { BoardView M };

    ghost view = { λ b. board_of M.seen b.machine b.store b.bus b.running b.tally };

    ghost invariant = { λ b. AreParts M.meaning b.store b.running b.tally };
}

impl<M: Clocked> Board<M> {
    /// Resets the machine.
    pub fn new(machine: M, store: Store, entry: u16, sp: u32, bus: Bus) -> Board<M>
        requires store { store.machine ≡ M.meaning.machine }
        requires entry { entry < 512 }
        requires memory { 0 < length bus.words }
        ensures start { IsReset M.state M.meaning entry sp bus result }
        ensures store { result.store ≡ store }
        ensures bus { result.bus ≡ bus }
        ensures counts { result.counts ≡ start_counts }
        ensures end { result.end ≡ None }
        ensures buses { result.buses ≡ start_buses }
    {
        let mut machine = machine;
        let first = bus.word(0);
        machine.reset(&Start { entry, sp, first });
        Board {
            machine,
            store,
            bus,
            running: Running::START,
            tally: Tally::START,
        }
    }

    /// One turn of the run without the test of the bound: an end that comes before a cycle, or a cycle.
    #[inline(always)]
    pub fn cycle<S: Source, K: Sink>(&mut self, source: &mut S, sink: &mut K) -> Tick
        requires { self.old.counts.cycles ≤ 2 ^ 62 + 4096 }
        ensures turn { IsTurned M.state M.meaning (S.left source.old) (K.held sink.old) self.old (S.left source.new) (K.held sink.new) self.new None }
        ensures cut { IsCutByFault M.state M.meaning (S.left source.old) (K.held sink.old) self.old (S.left source.new) (K.held sink.new) self.new }
        ensures tick { result ≡ tick_of self.old.counts self.new.counts self.new.end }
        ensures goes_on { GoesOn S.left S.faults K.held K.passed K.faults source.old sink.old self.old source.new sink.new self.new }
        ensures before { EndsInTime M.state M.meaning self.old self.new }
        ensures counted { IsCountedTurn M.state M.meaning self.old self.new }
        ensures writes { ChangesAtMar M.state M.meaning self.old self.new × EndsUnwritten self.old self.new }
        ensures waits { LetsBytesWait M.meaning (word_at M.meaning self.old.store.words (M.state self.old.machine)) (M.state self.old.machine)
            (S.left source.old) (K.held sink.old) self.old.bus sink.old sink.new }
    {
        turn_once(
            true,
            &mut self.machine,
            &self.store,
            &mut self.bus,
            &mut self.running,
            &mut self.tally,
            source,
            sink,
        )
    }

    /// Turns up to the next boundary, where it returns none, or up to the end.
    pub fn instruction<S: Source, K: Sink>(&mut self, source: &mut S, sink: &mut K) -> Option<End>
        requires { self.old.counts.cycles ≤ 2 ^ 62 + 2048 }
        ensures run { IsLegRun M.state M.meaning (S.left source.old) (K.held sink.old) self.old (S.left source.new) (K.held sink.new) self.new }
        ensures read { LegIsCutByRead M.state M.meaning (S.left source.old) (K.held sink.old) self.old (S.left source.new) (K.held sink.new) self.new }
        ensures write { LegIsCutByWrite M.state M.meaning (S.left source.old) (K.held sink.old) self.old (S.left source.new) (K.held sink.new) self.new }
        ensures value { result ≡ self.new.end }
        ensures growth { self.new.counts.cycles ≤ self.old.counts.cycles + 1024 }
        ensures goes_on { GoesOn S.left S.faults K.held K.passed K.faults source.old sink.old self.old source.new sink.new self.new }
        ensures in_time { ComesInTime M.state M.meaning self.old self.new }
    {
        if self.running.end.is_some() {
            return self.running.end;
        }
        turn_to_boundary(
            &mut self.machine,
            &self.store,
            &mut self.bus,
            &mut self.running,
            &mut self.tally,
            source,
            sink,
        );
        self.running.end
    }

    // Tests the bound, and returns whether the board goes on.
    #[inline(always)]
    fn goes_on(&mut self, bound: u64) -> bool
        ensures stays { result ≡ true → (self.new ≡ self.old) × (self.old.end ≡ None) }
        ensures below { result ≡ true → IsBelow M.state M.meaning bound self.old }
        ensures bounded { (h : Option (List ℕ)) → ShowsAs M.state h self.old h self.new (bounded M.meaning (Some bound)) }
        ensures world { (r : MicroRun M.State) → (bounded M.meaning (Some bound) r).world ≡ r.world }
        ensures same { self.new ≡ record self.old { end = self.new.end } }
        ensures stops { result ≡ false → IsSome self.new.end }
        ensures ended { (e : End) → self.old.end ≡ Some e → self.new ≡ self.old }
        ensures by { self.old.end ≡ None → result ≡ false → self.new.end ≡ Some End.Bound }
    {
        if self.running.end.is_none()
            && self.running.cycles >= bound
            && self.machine.at_boundary()
        {
            self.running.end = Some(End::Bound);
        }
        self.running.end.is_none()
    }

    // Flushes the console. Where that fails, the end is a write fault.
    fn finish<K: Sink>(&mut self, sink: &mut K) -> Result<(), BusFault>
        requires { IsSome self.old.end }
        ensures ok { OnOk result ((self.new.end ≡ self.old.end) × ShowsAs M.state (K.held sink.old) self.old (K.held sink.new) self.new (λ r. r)) }
        ensures err { (left : Option (List ℕ)) → IfErr result (Stands left (K.held sink.old) self.old.bus left (K.held sink.new) self.new.bus) }
        ensures fault { IfErr result (λ e. (e ≡ BusFault.WriteFault) × (self.new.end ≡ Some End.WriteFault)) }
        ensures empty { self.old.bus.console.kept ≡ [] → IsOk result × (self.new ≡ self.old) × (sink.new ≡ sink.old) }
        ensures kept { self.new.bus.console.kept ≡ [] }
        ensures same { IsOnlyFlushed self.old self.new }
        ensures sink { SinkGoesOn K.held K.passed (result ≡ Err BusFault.WriteFault) sink.old sink.new }
        ensures cause { HasFaultCause 0 0 (K.faults sink.old) (K.faults sink.new) result }
    {
        let flushed = self.bus.flush(sink);
        if flushed.is_err() {
            self.running.end = Some(End::WriteFault);
        }
        flushed
    }

    /// Only the test of the bound, with the flush where it ends the board.
    #[inline(always)]
    pub fn stop_at<K: Sink>(&mut self, bound: u64, sink: &mut K) -> Option<End>
        ensures run { NoFault self.old.end self.new.end →
            ShowsAs M.state (K.held sink.old) self.old (K.held sink.new) self.new (bounded M.meaning (Some bound)) }
        ensures write { (left : Option (List ℕ)) → BoundIsCutByWrite M.state M.meaning left (K.held sink.old) self.old left (K.held sink.new) self.new bound }
        ensures value { result ≡ self.new.end }
        ensures in_time { (result ≡ None → IsBelow M.state M.meaning bound self.old) × AreCounts self.new.counts self.new.end }
        ensures stays { (result ≡ None → (self.new ≡ self.old) × (sink.new ≡ sink.old))
            × ((e : End) → self.old.end ≡ Some e → (self.new ≡ self.old) × (sink.new ≡ sink.old)) }
        ensures kept { self.old.end ≡ None → IsSome self.new.end → self.new.bus.console.kept ≡ [] }
        ensures same { IsOnlyFlushed self.old self.new }
        ensures sink { SinkGoesOn K.held K.passed (self.new.end ≡ Some End.WriteFault) sink.old sink.new }
        ensures cause { HasEndCause 0 0 (K.faults sink.old) (K.faults sink.new) self.old.end self.new.end }
    {
        if self.running.end.is_some() {
            return self.running.end;
        }
        if self.goes_on(bound) {
            return None;
        }
        let _ = self.finish(sink);
        self.running.end
    }

    // One turn of a run. Where `tries` says so, its cycle is first tried as one that needs neither the source nor the sink.
    #[inline(always)]
    fn turn_by<S: Source, K: Sink>(
        &mut self,
        tries: bool,
        bound: u64,
        source: &mut S,
        sink: &mut K,
    ) -> Option<End>
        requires { self.old.counts.cycles ≤ 2 ^ 62 + 4096 }
        ensures turn { IsTurned M.state M.meaning (S.left source.old) (K.held sink.old) self.old (S.left source.new) (K.held sink.new) self.new (Some bound) }
        ensures read { RunIsCutByRead M.state M.meaning (S.left source.old) (K.held sink.old) self.old
            (S.left source.new) (K.held sink.new) self.new (Some bound) }
        ensures write { TurnIsCut M.state M.meaning bound (S.left source.old) (K.held sink.old) self.old (S.left source.new) (K.held sink.new) self.new }
        ensures value { result ≡ self.new.end }
        ensures goes_on { GoesOn S.left S.faults K.held K.passed K.faults source.old sink.old self.old source.new sink.new self.new }
        ensures below { self.new.end ≡ None → IsBelow M.state M.meaning bound self.old }
        ensures counted { IsCountedTurn M.state M.meaning self.old self.new }
        ensures in_time { KeepsInTime M.state M.meaning self.old self.new bound }
    {
        if let Some(end) = self.stop_at(bound, sink) {
            return Some(end);
        }
        turn_once(
            tries,
            &mut self.machine,
            &self.store,
            &mut self.bus,
            &mut self.running,
            &mut self.tally,
            source,
            sink,
        );
        self.running.end
    }

    /// One turn of a run: the test of the bound, and where it does not end the board, a cycle.
    #[inline(always)]
    pub fn turn<S: Source, K: Sink>(
        &mut self,
        bound: u64,
        source: &mut S,
        sink: &mut K,
    ) -> Option<End>
        requires { self.old.counts.cycles ≤ 2 ^ 62 + 4096 }
        ensures turn { IsTurned M.state M.meaning (S.left source.old) (K.held sink.old) self.old (S.left source.new) (K.held sink.new) self.new (Some bound) }
        ensures read { RunIsCutByRead M.state M.meaning (S.left source.old) (K.held sink.old) self.old
            (S.left source.new) (K.held sink.new) self.new (Some bound) }
        ensures write { TurnIsCut M.state M.meaning bound (S.left source.old) (K.held sink.old) self.old (S.left source.new) (K.held sink.new) self.new }
        ensures value { result ≡ self.new.end }
        ensures goes_on { GoesOn S.left S.faults K.held K.passed K.faults source.old sink.old self.old source.new sink.new self.new }
        ensures below { self.new.end ≡ None → IsBelow M.state M.meaning bound self.old }
        ensures counted { IsCountedTurn M.state M.meaning self.old self.new }
        ensures in_time { KeepsInTime M.state M.meaning self.old self.new bound }
    {
        self.turn_by(true, bound, source, sink)
    }

    // Turns that need neither the source nor the sink. In a function of its own, so that only they are in its loop.
    #[inline(never)]
    fn run_inside(&mut self, bound: u64)
        requires running { self.old.end ≡ None }
        requires cycles { (bound ≤ 2 ^ 62) × (self.old.counts.cycles ≤ 2 ^ 62 + 2048) }
        ensures { IsRunInside M.state M.meaning self.old self.new bound }
    {
        turns_inside(
            &mut self.machine,
            &self.store,
            &mut self.bus,
            &mut self.running,
            &mut self.tally,
            bound,
        );
    }

    // The turns that need neither the source nor the sink, and then one that is not tried as such a turn once more.
    fn stride<S: Source, K: Sink>(&mut self, bound: u64, source: &mut S, sink: &mut K)
        requires running { self.old.end ≡ None }
        requires cycles { (bound ≤ 2 ^ 62) × (self.old.counts.cycles ≤ 2 ^ 62 + 2048) }
        ensures run { NoFault None self.new.end →
            IsReached M.state M.meaning (S.left source.old) (K.held sink.old) self.old (S.left source.new)
            (K.held sink.new) self.new (Some bound) }
        ensures read { RunIsCutByRead M.state M.meaning (S.left source.old) (K.held sink.old) self.old
            (S.left source.new) (K.held sink.new) self.new (Some bound) }
        ensures write { RunIsCutByWrite M.state M.meaning (S.left source.old) (K.held sink.old) self.old
            (S.left source.new) (K.held sink.new) self.new (Some bound) }
        ensures goes_on { GoesOn S.left S.faults K.held K.passed K.faults source.old sink.old self.old source.new sink.new self.new }
        ensures in_time { KeepsInTime M.state M.meaning self.old self.new bound }
        ensures onward { self.new.end ≡ None → self.old.counts.cycles < self.new.counts.cycles }
    {
        self.run_inside(bound);
        self.turn_by(false, bound, source, sink);
    }

    /// Turns until the run ends, with the test of the bound before each, and then the flush.
    pub fn run<S: Source, K: Sink>(&mut self, bound: u64, source: &mut S, sink: &mut K) -> End
        requires bound { bound ≤ 2 ^ 62 }
        requires cycles { self.old.counts.cycles ≤ 2 ^ 62 + 1024 }
        ensures run { IsRun M.state M.meaning (S.left source.old) (K.held sink.old) self.old (S.left source.new) (K.held sink.new) self.new (Some bound) }
        ensures read { RunIsCutByRead M.state M.meaning (S.left source.old) (K.held sink.old) self.old
            (S.left source.new) (K.held sink.new) self.new (Some bound) }
        ensures write { RunIsCutByWrite M.state M.meaning (S.left source.old) (K.held sink.old) self.old
            (S.left source.new) (K.held sink.new) self.new (Some bound) }
        ensures end { self.new.end ≡ Some result }
        ensures times { IsNear (max bound self.old.counts.cycles) self.new.counts }
        ensures kept { self.old.end ≡ None → self.new.bus.console.kept ≡ [] }
        ensures goes_on { GoesOn S.left S.faults K.held K.passed K.faults source.old sink.old self.old source.new sink.new self.new }
    {
        if let Some(end) = self.running.end {
            return end;
        }
        'strides: while self.running.end.is_none() {
            self.stride(bound, source, sink);
        }
        let _ = self.finish(sink);
        self.running.end.unwrap()
    }

    /// Puts what the console keeps to the sink, at any time.
    pub fn flush<K: Sink>(&mut self, sink: &mut K) -> Result<(), BusFault>
        ensures same { (self.new ≡ record self.old { bus = self.new.bus }) × KeepsMemoryAndInput self.old.bus self.new.bus }
        ensures ok { OnOk result (ShowsAs M.state (K.held sink.old) self.old (K.held sink.new) self.new (λ r. r)) }
        ensures err { (left : Option (List ℕ)) → IfErr result (Stands left (K.held sink.old) self.old.bus left (K.held sink.new) self.new.bus) }
        ensures fault { IfErr result (λ e. e ≡ BusFault.WriteFault) }
        ensures kept { self.new.bus.console.kept ≡ [] }
        ensures empty { self.old.bus.console.kept ≡ [] → IsOk result × (self.new ≡ self.old) × (sink.new ≡ sink.old) }
        ensures sink { SinkGoesOn K.held K.passed (result ≡ Err BusFault.WriteFault) sink.old sink.new }
        ensures flushed { OnOk result ((self.old.bus.console.kept ≡ [] →
            IsFlushed (K.held sink.old) (K.passed sink.old)) → IsFlushed (K.held sink.new) (K.passed sink.new)) }
        ensures cause { HasFaultCause 0 0 (K.faults sink.old) (K.faults sink.new) result }
    {
        self.bus.flush(sink)
    }

    pub fn registers(&self) -> Registers
        ensures value { result ≡ M.meaning.registers (M.state self.now.machine) }
        ensures mpc { result.mpc < 512 }
    {
        self.machine.registers()
    }

    /// The address of the word that the next cycle sets up.
    pub fn mpc(&self) -> u16
        ensures value { result ≡ (M.meaning.registers (M.state self.now.machine)).mpc }
        ensures small { result < 512 }
    {
        self.machine.mpc()
    }

    pub fn counts(&self) -> Counts
        ensures { result ≡ self.now.counts }
    {
        counts_in(&self.running, &self.tally)
    }

    pub fn ended(&self) -> Option<End>
        ensures { result ≡ self.now.end }
    {
        self.running.end
    }

    pub fn bus(&self) -> &Bus
        ensures { result.now ≡ self.now.bus }
    {
        &self.bus
    }

    /// What drove the operand buses in the last clocked cycle.
    pub fn last_drive(&self) -> Drive
        ensures { result ≡ self.now.buses.drive }
    {
        self.machine.last_drive()
    }

    /// What the ALU and the shifter gave in the last clocked cycle.
    pub fn last_computed(&self) -> Computed
        ensures { result ≡ self.now.buses.computed }
    {
        self.machine.last_computed()
    }
}
