//! The clocking commands, turn by turn.

ghost use Rattle.std.specs.Prelude.{◌≡◌, ◌⊎◌, ◌<◌, ◌≤◌, ◌+◌, ◌^◌, ◌==◌, ◌-◌, ℕ, Option, Some, None, OnOk, OnErr, IsSome, false, true};
ghost use Rattle.std.specs.List.{list_any};
ghost use Rattle.mic_debugger.specs.Common.{HasCause, KeepsFront, number_of, GoesOn, InTime, IsBelow, IsCountedTurn, IsTurned, KeepsInTime, RunIsCutByRead};
ghost use Rattle.mic_debugger.specs.Common.{TurnIsCut, end_line};
ghost use Rattle.mic_debugger.specs.Clocking.{comes, has_break, has_changed, is_at_boundary};
ghost use Rattle.mic_debugger.specs.Session.{HasReadCause, IsFirstPiece, IsPrinted, IsSecondPiece, PutsTurn};
ghost use Rattle.mic_debugger.specs.Obeys.{IsCarriedOut, IsPlanBroken, session_at};
ghost use Rattle.mic_debugger.specs.Outcome.{KeepFronts, streams};
ghost use Rattle.mic_debugger.specs.declared.plan.Plan.TheVariants as plans;

use crate::listing::Listing;
use crate::pieces::{put_two, registers_line};
use crate::until::{Until, Watched};
use cli_session::end_line;
use console_port::Bus;
use mic_base::{Line, Sink, SinkFailed, Source};
use mic_clock::{Board, Clocked, Counts, End};

/// A clocking command: what it waits for, and what the session has set.
#[derive(Drop)]
pub(crate) struct Clocking<'a> {
    pub until: Until,
    pub bound: u64,
    pub breaks: &'a [u32],
    pub listing: &'a Listing,
}

fn is_at_boundary(counts: &Counts) -> bool
    ensures { result ≡ is_at_boundary counts.now }
{
    match counts.boundary {
        Some(boundary) => counts.cycles.saturating_sub(boundary.cycles) == 0,
        None => false,
    }
}

fn stands_at(breaks: &[u32], place: u32) -> bool
    ensures { result ≡ list_any (λ a. a == place) breaks.now }
{
    breaks.iter().any(|at| *at == place)
}

fn has_break(breaks: &[u32], counts: &Counts) -> bool
    ensures { result ≡ has_break breaks.now counts.now }
{
    match counts.boundary {
        Some(boundary) => stands_at(breaks, boundary.at),
        None => false,
    }
}

fn has_changed(watched: Option<Watched>, bus: &Bus) -> bool
    ensures { result ≡ has_changed watched bus.now.words }
{
    match watched {
        Some(watched) => match bus.peek(watched.at) {
            Some(now) => now != watched.value,
            None => false,
        },
        None => false,
    }
}

impl Clocking<'_> {
    /// Whether a turn that led here is one that is waited for.
    fn comes(&self, counts: &Counts, bus: &Bus) -> bool
        ensures { result ≡ comes self.now.breaks.now self.now.until counts.now bus.now.words }
    {
        match self.until {
            Until::Cycle => true,
            Until::Boundary => is_at_boundary(counts),
            Until::Cause(watched) => {
                is_at_boundary(counts)
                    && (has_break(self.breaks, counts) || has_changed(watched, bus))
            }
        }
    }

    /// The first piece of what is printed of a turn that is waited for.
    fn first_piece(&self, mpc: u16, stalled: bool, counts: &Counts) -> Line
        requires { mpc < 512 }
        ensures { IsFirstPiece self.now.listing.now self.now.breaks.now self.now.until mpc stalled counts.now result }
    {
        let mut line = Line::new();
        match self.until {
            Until::Cycle => return self.listing.clocked_line(counts.cycles, mpc, stalled),
            Until::Boundary => {}
            Until::Cause(_) => {
                if has_break(self.breaks, counts) {
                    line.text("break\n");
                } else {
                    line.text("watch\n");
                }
            }
        }
        self.listing.place_line(counts, &mut line);
        line
    }

    /// The second piece.
    fn second_piece<M: Clocked>(&self, board: &Board<M>) -> Line
        ensures { IsSecondPiece M.state M.meaning self.now.listing.now self.now.breaks.now self.now.until board.now result }
    {
        let mpc = board.mpc();
        match self.until {
            Until::Cycle => registers_line(&board.registers()),
            _ => self.listing.next_line(mpc),
        }
    }

    /// Puts what is printed of a turn that began at the word at `mpc` and led here.
    fn print<M: Clocked, E: Sink>(
        &self,
        mpc: u16,
        board: &Board<M>,
        err: &mut E,
    ) -> Result<(), SinkFailed>
        requires { mpc < 512 }
        ensures puts { PutsTurn M.state M.meaning E.held self.now.listing.now self.now.breaks.now self.now.until
            mpc board.now err.old err.new result }
        ensures keeps { KeepsFront (E.held err.old) (E.held err.new) }
        ensures passed { E.passed err.new ≡ E.passed err.old }
        ensures cause { HasCause (E.faults err.old) (E.faults err.new) result }
    {
        let counts = board.counts();
        if let Some(end) = board.ended() {
            return err.put(end_line(end).bytes());
        }
        if !self.comes(&counts, board.bus()) {
            return Ok(());
        }
        let first = self.first_piece(mpc, board.last_drive().stalled, &counts);
        let second = self.second_piece(board);
        put_two(err, first.bytes(), second.bytes())
    }

    /// Makes one turn of the board, and puts what is printed of it. Returns whether the turn is one that is waited for.
    fn turn<M: Clocked, S: Source, K: Sink, E: Sink>(
        &self,
        board: &mut Board<M>,
        input: &mut S,
        out: &mut K,
        err: &mut E,
    ) -> Result<bool, SinkFailed>
        requires ready { (board.old.end ≡ None) × (board.old.counts.cycles ≤ 2 ^ 62 + 4096) }
        ensures turn { IsTurned M.state M.meaning (S.left input.old) (K.held out.old) board.old (S.left input.new)
            (K.held out.new) board.new (Some self.now.bound) }
        ensures read { RunIsCutByRead M.state M.meaning (S.left input.old) (K.held out.old) board.old
            (S.left input.new) (K.held out.new) board.new (Some self.now.bound) }
        ensures write { TurnIsCut M.state M.meaning self.now.bound (S.left input.old) (K.held out.old) board.old (S.left input.new)
            (K.held out.new) board.new }
        ensures goes_on { GoesOn S.left S.faults K.held K.passed K.faults input.old out.old board.old input.new out.new board.new }
        ensures below { board.new.end ≡ None → IsBelow M.state M.meaning self.now.bound board.old }
        ensures counted { IsCountedTurn M.state M.meaning board.old board.new }
        ensures in_time { KeepsInTime M.state M.meaning board.old board.new self.now.bound }
        ensures printed { IsPrinted M.state M.meaning E.held E.faults self.now.listing.now self.now.breaks.now self.now.until
            board.old board.new err.old err.new result }
    {
        let mpc = board.mpc();
        board.turn(self.bound, input, out);
        if board.ended() == Some(End::WriteFault) {
            return Err(SinkFailed);
        }
        let came = board.ended().is_none() && self.comes(&board.counts(), board.bus());
        match self.print(mpc, board, err) {
            Ok(()) => Ok(came),
            Err(failed) => Err(failed),
        }
    }

    /// Makes turns until this many were waited for, or the board has ended.
    pub fn clock<M: Clocked, S: Source, K: Sink, E: Sink>(
        &self,
        times: u32,
        board: &mut Board<M>,
        input: &mut S,
        out: &mut K,
        err: &mut E,
    ) -> Result<(), SinkFailed>
        requires live { board.old.end ≡ None }
        requires bound { self.now.bound ≤ 2 ^ 62 }
        requires in_time { InTime (2 ^ 62) board.old.counts (M.meaning.is_boundary (M.state board.old.machine)) board.old.end }
        ensures done { OnOk result ((watched : Option ℕ) → IsCarriedOut M.state M.meaning
            (session_at board.old self.now.listing.now self.now.bound self.now.breaks.now watched) board.new
            (streams S.left S.faults input.old K.held K.passed K.faults out.old E.held E.passed E.faults err.old)
            (streams S.left S.faults input.new K.held K.passed K.faults out.new E.held E.passed E.faults err.new)
            (plans.Clock self.now.until times)) }
        ensures broken { OnErr result ((watched : Option ℕ) → IsPlanBroken M.state M.meaning
            (session_at board.old self.now.listing.now self.now.bound self.now.breaks.now watched) board.new
            (streams S.left S.faults input.old K.held K.passed K.faults out.old E.held E.passed E.faults err.old)
            (streams S.left S.faults input.new K.held K.passed K.faults out.new E.held E.passed E.faults err.new)
            (plans.Clock self.now.until times)) }
        ensures input { HasReadCause (S.faults input.old) (S.faults input.new) board.new.end }
        ensures store { board.new.store ≡ board.old.store }
        ensures in_time { InTime (2 ^ 62) board.new.counts (M.meaning.is_boundary (M.state board.new.machine)) board.new.end }
        ensures keeps { KeepFronts (K.held out.old) (K.held out.new) (E.held err.old) (E.held err.new) }
    {
        let mut left = times;
        'turns: while waits(left, board) {
            let came = self.turn(board, input, out, err)?;
            let rest = less(left, came);
            left = rest;
        }
        Ok(())
    }
}

/// Whether more is waited for.
fn waits<M: Clocked>(left: u32, board: &Board<M>) -> bool
    ensures some { result ≡ true → 0 < left }
    ensures live { result ≡ true → board.now.end ≡ None }
    ensures over { result ≡ false → IsSome board.now.end ⊎ (left ≡ 0) }
{
    left > 0 && board.ended().is_none()
}

/// What is left to wait for.
fn less(left: u32, came: bool) -> u32
    requires { 0 < left }
    ensures { number_of came + result ≡ left }
{
    if came { left - 1 } else { left }
}
