//! A board with a cursor at it, or some cycles before it.

ghost use Rattle.std.specs.Prelude.{◌≡◌, ◌≢◌, ◌≤◌, ◌<◌, ◌+◌, ◌^◌, [], Err, IsOk, IfOk, IfErr, OnOk, true, false, length, slice_get};
ghost use Rattle.mic_base.specs.Prelude.{IsFlushed};
ghost use Rattle.console_port.specs.Prelude.{HasFaultCause, SinkGoesOn, KeepsMemoryAndInput};
ghost use Rattle.mic_clock.specs.Prelude.{GoesOn, ShowsAs};
ghost use Rattle.mic_rewind.specs.View.{GoesBack, history_of};
ghost use Rattle.mic_rewind.specs.Rewind.{ClocksOn, MovesOn, StandsOnErr, moment_of, state_of};

use crate::history::History;
use crate::moment::Moment;
use console_port::BusFault;
use ijvm_verifier::VerifiedImage;
use mic_base::{Sink, Source};
use mic_clock::{Board, Clocked, Counts, End, Registers, Tick};
use std::alloc::{AllocError, Global};
use std::marker::Model;

/// A board that is only clocked forward, and the history of its last cycles, with the cursor.
#[derive(Drop)]
pub struct Rewind<M: Clocked> {
    board: Board<M>,
    history: History,
}

impl<M: Clocked> Model for Rewind<M> {
    ghost use Rattle.mic_rewind.specs.Rewind.{RewindView, IsRewind};

    ghost Value = { RewindView M };

    ghost view = { λ r. record { board = r.board; history = r.history } };

    ghost invariant = { λ r. IsRewind M.state M.meaning r.board r.history };
}

/// Where a board stands, apart from its memory.
fn moment_of<M: Clocked>(board: &Board<M>) -> Moment
    ensures value { result ≡ moment_of M.state M.meaning board.now }
    ensures mpc { result.registers.mpc < 512 }
{
    Moment {
        registers: board.registers(),
        counts: board.counts(),
    }
}

/// The memory words of a board.
fn words_of<M: Clocked>(alloc: Global, board: &Board<M>, size: u32) -> Result<Vec<u32>, AllocError>
    requires { size ≡ length board.now.bus.words }
    ensures { IfOk result (λ memory. memory.items ≡ board.now.bus.words) }
{
    let mut memory = Vec::new(alloc);
    for at in 0..size {
        memory.push(board.bus().word(at))?;
    }
    Ok(memory)
}

impl<M: Clocked> Rewind<M> {
    /// Begins where a board stands that runs this image. At most `depth` cycles are kept.
    pub fn new(
        alloc: Global,
        board: Board<M>,
        image: &VerifiedImage,
        depth: u32,
    ) -> Result<Rewind<M>, AllocError>
    where
        M: Drop,
        requires memory { length board.bus.words ≡ image.now.map.stack_end }
        requires depth { (0 < depth) × (depth ≤ 65536) }
        ensures board { IfOk result (λ r. r.board ≡ board) }
        ensures history { IfOk result (λ r. r.history ≡ history_of (state_of M.state M.meaning board) depth) }
    {
        let memory = words_of(alloc, &board, image.map().stack_end)?;
        let history = History::new(alloc, moment_of(&board), memory, depth)?;
        Ok(Rewind { board, history })
    }

    /// Goes forward by a cycle: over the kept one after the cursor, or else by one that the board clocks.
    pub fn forward<S: Source, K: Sink>(&mut self, source: &mut S, sink: &mut K) -> Tick
        requires { self.old.history.after ≡ [] → self.old.board.counts.cycles ≤ 2 ^ 62 + 4096 }
        ensures moves { self.old.history.after ≢ [] → MovesOn source.old sink.old self.old source.new sink.new self.new result }
        ensures clocks { self.old.history.after ≡ [] →
            ClocksOn M.state M.meaning S.left K.held source.old sink.old self.old source.new sink.new self.new result }
        ensures growth { self.new.board.counts.cycles ≤ self.old.board.counts.cycles + 1 }
        ensures goes_on { GoesOn S.left S.faults K.held K.passed K.faults source.old sink.old self.old.board source.new sink.new self.new.board }
    {
        if self.history.behind() > 0 {
            return self.history.forward();
        }
        let tick = self.board.cycle(source, sink);
        if self.board.ended().is_none() {
            let after = moment_of(&self.board);
            let word = self.board.bus().peek(after.registers.mar);
            self.history.append(after, tick, word);
        }
        tick
    }

    /// Goes back over the kept cycle before the cursor, and returns whether there was one.
    pub fn back(&mut self) -> bool
        ensures went { result ≡ true → GoesBack self.old.history self.new.history × (self.new.board ≡ self.old.board) }
        ensures stayed { result ≡ false → (self.old.history.before ≡ []) × (self.new ≡ self.old) }
    {
        self.history.back()
    }

    /// Puts what the board's console keeps to the sink.
    pub fn flush<K: Sink>(&mut self, sink: &mut K) -> Result<(), BusFault>
        ensures same { (self.new ≡ record self.old { board = record self.old.board { bus = self.new.board.bus } })
            × KeepsMemoryAndInput self.old.board.bus self.new.board.bus }
        ensures ok { OnOk result (ShowsAs M.state (K.held sink.old) self.old.board (K.held sink.new) self.new.board (λ r. r)) }
        ensures err { StandsOnErr K.held sink.old self.old.board.bus sink.new self.new.board.bus result }
        ensures fault { IfErr result (λ e. e ≡ BusFault.WriteFault) }
        ensures kept { self.new.board.bus.console.kept ≡ [] }
        ensures empty { self.old.board.bus.console.kept ≡ [] →
            IsOk result × (self.new ≡ self.old) × (sink.new ≡ sink.old) }
        ensures sink { SinkGoesOn K.held K.passed (result ≡ Err BusFault.WriteFault) sink.old sink.new }
        ensures flushed { OnOk result ((self.old.board.bus.console.kept ≡ [] →
            IsFlushed (K.held sink.old) (K.passed sink.old)) → IsFlushed (K.held sink.new) (K.passed sink.new)) }
        ensures cause { HasFaultCause 0 0 (K.faults sink.old) (K.faults sink.new) result }
    {
        self.board.flush(sink)
    }

    /// The end of the board, if it has ended.
    pub fn ended(&self) -> Option<End>
        ensures { result ≡ self.now.board.end }
    {
        self.board.ended()
    }

    /// The registers at the cursor.
    pub fn registers(&self) -> Registers
        ensures value { result ≡ self.now.history.here.moment.registers }
        ensures mpc { result.mpc < 512 }
    {
        self.history.here().registers.again()
    }

    /// The counts at the cursor.
    pub fn counts(&self) -> Counts
        ensures { result ≡ self.now.history.here.moment.counts }
    {
        self.history.here().counts
    }

    /// The memory word at the cursor, or none where there is no memory.
    pub fn peek(&self, at: u32) -> Option<u32>
        ensures { result ≡ slice_get self.now.history.here.words at }
    {
        self.history.peek(at)
    }

    /// The number of kept cycles from the cursor to the board.
    pub fn behind(&self) -> u32
        ensures { result ≡ length self.now.history.after }
    {
        self.history.behind() as u32
    }

    /// The number of kept cycles before the cursor.
    pub fn kept(&self) -> u32
        ensures { result ≡ length self.now.history.before }
    {
        self.history.kept() as u32
    }
}
