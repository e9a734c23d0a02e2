//! A session: a board, what names its words and instructions, and what the student has set.

ghost use Rattle.std.specs.Prelude.{◌≡◌, ◌≤◌, ◌+◌, ◌^◌, ◌++◌, ℕ, [], Some, None, OnOk, OnErr, IfOk, IsErr, min, codes};
ghost use Rattle.mic_debugger.specs.Common.{HasCause, IsFlushed, KeepsFront, Puts, Places, demands_of, IsFilled, SinkGoesOn, KeepsMemoryAndInput, AreCounts};
ghost use Rattle.mic_debugger.specs.Common.{ShowsAs};
ghost use Rattle.mic_debugger.specs.Outcome.{HasSinkCause, KeepFronts, streams};
ghost use Rattle.mic_debugger.specs.Commands.{command_of};
ghost use Rattle.mic_debugger.specs.Shown.{PutsShown, registers_text, stack_of};
ghost use Rattle.mic_debugger.specs.Obeys.{IsLineBroken, IsCarriedOut, IsPlanBroken, KeepsRules, Obeys, plan_in, session_at};
ghost use Rattle.mic_debugger.specs.Session.{HasReadCause, HoldsFront};
ghost use Rattle.mic_debugger.specs.View.{listing_of};
ghost use Rattle.mic_debugger.specs.Plans.{breaks_after, clocking, plan_by, plan_of, reply_of, reply_text, watched_after, watched_now};

use crate::breakpoints::Breakpoints;
use crate::clocking::Clocking;
use crate::fault::SessionFault;
use crate::listing::Listing;
use crate::pieces::{put_two, put_words};
use crate::plan::{Plan, Shown};
use crate::reply::Reply;
use crate::table::{Verb, read_command};
use crate::until::{Until, Watched};
use cli_session::{Command, CommandError, state_text};
use ijvm_verifier::VerifiedImage;
use mal_parser::MalProgram;
use mic_base::{Line, Sink, SinkFailed, Source};
use mic_clock::{Board, Clocked, End};
use std::marker::Model;
use store_placement::Placement;

/// A debugging session over a board.
#[derive(Drop)]
pub struct Session<M: Clocked> {
    board: Board<M>,
    listing: Listing,
    bound: u64,
    breaks: Breakpoints,
    watched: Option<u32>,
}

impl<M: Clocked> Model for Session<M> {
    ghost use Rattle.std.specs.Prelude.{◌≤◌, ◌^◌};
    ghost use Rattle.mic_clock.specs.Prelude.{InTime};
    ghost use Rattle.mic_debugger.specs.View.{SessionView};

    ghost Value = { SessionView M };

    ghost view = { λ s. record { board = s.board; listing = s.listing; bound = s.bound; breaks = s.breaks; watched = s.watched } };

    ghost invariant = { λ s. (s.bound ≤ 2 ^ 62) × InTime (2 ^ 62) s.board.counts (M.meaning.is_boundary (M.state s.board.machine)) s.board.end };
}

impl<M: Clocked> Session<M> {
    /// A session over a board whose store is the program's at this placement.
    pub fn new(
        board: Board<M>,
        program: MalProgram,
        placement: Placement,
        image: VerifiedImage,
        bound: u64,
    ) -> Session<M>
        requires placement { Places (demands_of program) placement }
        requires store { IsFilled program placement board.store.words }
        requires bound { bound ≤ 2 ^ 62 }
        requires cycles { board.counts.cycles ≤ 2 ^ 62 }
        requires counts { AreCounts board.counts board.end }
        ensures { result ≡ session_at board (listing_of program placement image) bound [] None }
    {
        Session {
            board,
            listing: Listing::new(program, placement, image),
            bound,
            breaks: Breakpoints::new(),
            watched: None,
        }
    }

    pub fn board(&self) -> &Board<M>
        ensures { result.now ≡ self.now.board }
    {
        &self.board
    }

    /// Reads a line.
    fn read(&self, line: &[u8]) -> Result<Option<Command<Verb>>, CommandError>
        ensures { result ≡ command_of self.now.listing.memory line.now }
    {
        read_command(line, self.listing.memory_words())
    }

    /// The watched word, and its value now.
    fn watched_now(&self) -> Option<Watched>
        ensures { result ≡ watched_now self.now.watched self.now.board.bus.words }
    {
        let at = self.watched?;
        let value = self.board.bus().peek(at)?;
        Some(Watched { at, value })
    }

    /// An ended board is clocked no more.
    fn clocking(&self, until: Until, times: u32) -> Plan
        ensures { result ≡ clocking self.now.board.end self.now.breaks self.now.watched self.now.board.bus.words until times }
    {
        if self.board.ended().is_some() {
            Plan::Show(Shown::Reply(Reply::Ended))
        } else {
            Plan::Clock { until, times }
        }
    }

    fn plan_by(&self, verb: Verb, number: u32) -> Plan
        ensures { result ≡ plan_by self.now.board.end self.now.breaks self.now.watched self.now.board.bus.words verb number }
    {
        match verb {
            Verb::Micro => self.clocking(Until::Cycle, number),
            Verb::Step => self.clocking(Until::Boundary, number),
            Verb::Go => self.clocking(Until::Cause(self.watched_now()), 1),
            Verb::Break => {
                if self.breaks.is_full_for(number) {
                    Plan::Show(Shown::Reply(Reply::TooManyBreaks))
                } else {
                    Plan::Show(Shown::Reply(Reply::Done))
                }
            }
            Verb::Clear => Plan::Show(Shown::Reply(Reply::Done)),
            Verb::Watch => Plan::Show(Shown::Reply(Reply::Done)),
            Verb::Regs => Plan::Show(Shown::Registers),
            Verb::Stack => Plan::Show(Shown::Stack),
            Verb::Where => Plan::Show(Shown::Where),
            Verb::Quit => Plan::Show(Shown::Reply(Reply::Quit)),
        }
    }

    /// What a line that was read comes to.
    fn plan(&self, read: Result<Option<Command<Verb>>, CommandError>) -> Plan
        ensures { result ≡ plan_of self.now.board.end self.now.breaks self.now.watched self.now.board.bus.words read }
    {
        match read {
            Ok(None) => Plan::Show(Shown::Reply(Reply::Done)),
            Ok(Some(command)) => self.plan_by(command.verb, command.number),
            Err(CommandError::BadCommand) => Plan::Show(Shown::Reply(Reply::BadCommand)),
            Err(CommandError::BadNumber) => Plan::Show(Shown::Reply(Reply::BadNumber)),
        }
    }

    /// Notes a breakpoint or a watched word.
    fn note(&mut self, read: Result<Option<Command<Verb>>, CommandError>)
        ensures breaks { self.new.breaks ≡ breaks_after self.old.breaks read }
        ensures watched { self.new.watched ≡ watched_after self.old.watched read }
        ensures same { self.new ≡ record self.old { breaks = self.new.breaks; watched = self.new.watched } }
    {
        if let Ok(Some(command)) = read {
            match command.verb {
                Verb::Break => self.breaks.set(command.number),
                Verb::Clear => self.breaks.clear(command.number),
                Verb::Watch => self.watched = Some(command.number),
                _ => {}
            }
        }
    }

    /// Puts the registers.
    fn put_registers<E: Sink>(&self, err: &mut E) -> Result<(), SinkFailed>
        ensures puts { Puts (E.held err.old) (registers_text M.state M.meaning self.now.board) result (E.held err.new) }
        ensures keeps { KeepsFront (E.held err.old) (E.held err.new) }
        ensures cause { HasCause (E.faults err.old) (E.faults err.new) result }
    {
        err.put(state_text(&self.board.registers()).bytes())
    }

    /// Puts where the run stands.
    fn put_where<E: Sink>(&self, err: &mut E) -> Result<(), SinkFailed>
        ensures puts { PutsShown M.state M.meaning E.held self.now err.old err.new result Shown.Where }
        ensures keeps { KeepsFront (E.held err.old) (E.held err.new) }
        ensures cause { HasCause (E.faults err.old) (E.faults err.new) result }
    {
        let mut line = Line::new();
        self.listing.place_line(&self.board.counts(), &mut line);
        let next = self.listing.next_line(self.board.mpc());
        put_two(err, line.bytes(), next.bytes())
    }

    /// Puts the memory words from LV up to SP, at most the 64 highest of them.
    #[tactic(auto, unfolding(crate::specs::Lines::stack_text))]
    fn put_stack<E: Sink>(&self, err: &mut E) -> Result<(), SinkFailed>
        ensures puts { Puts (E.held err.old) (stack_of M.state M.meaning self.now) result (E.held err.new) }
        ensures keeps { KeepsFront (E.held err.old) (E.held err.new) }
        ensures cause { HasCause (E.faults err.old) (E.faults err.new) result }
    {
        let registers = self.board.registers();
        let over = over_stack(registers.sp, self.listing.memory_words());
        let first = registers.lv.max(over.saturating_sub(64));
        put_words(self.board.bus(), first, over.saturating_sub(first), err)
    }

    /// Puts what is shown where nothing is clocked.
    fn show<E: Sink>(&self, shown: Shown, err: &mut E) -> Result<(), SinkFailed>
        ensures puts { PutsShown M.state M.meaning E.held self.now err.old err.new result shown }
        ensures keeps { KeepsFront (E.held err.old) (E.held err.new) }
        ensures cause { HasCause (E.faults err.old) (E.faults err.new) result }
    {
        match shown {
            Shown::Reply(reply) => err.put(reply_text(reply).as_bytes()),
            Shown::Registers => self.put_registers(err),
            Shown::Stack => self.put_stack(err),
            Shown::Where => self.put_where(err),
        }
    }

    /// Carries out a plan.
    fn carry_out<S: Source, K: Sink, E: Sink>(
        &mut self,
        plan: Plan,
        input: &mut S,
        out: &mut K,
        err: &mut E,
    ) -> Result<(), SinkFailed>
        requires { (u : Until) (times : ℕ) → plan ≡ Plan.Clock u times → self.old.board.end ≡ None }
        ensures done { OnOk result (IsCarriedOut M.state M.meaning self.old self.new.board
            (streams S.left S.faults input.old K.held K.passed K.faults out.old E.held E.passed E.faults err.old)
            (streams S.left S.faults input.new K.held K.passed K.faults out.new E.held E.passed E.faults err.new) plan) }
        ensures broken { OnErr result (IsPlanBroken M.state M.meaning self.old self.new.board
            (streams S.left S.faults input.old K.held K.passed K.faults out.old E.held E.passed E.faults err.old)
            (streams S.left S.faults input.new K.held K.passed K.faults out.new E.held E.passed E.faults err.new) plan) }
        ensures input { self.old.board.end ≡ None → HasReadCause (S.faults input.old) (S.faults input.new) self.new.board.end }
        ensures same { self.new ≡ record self.old { board = self.new.board } }
        ensures store { self.new.board.store ≡ self.old.board.store }
        ensures keeps { KeepFronts (K.held out.old) (K.held out.new) (E.held err.old) (E.held err.new) }
    {
        match plan {
            Plan::Clock { until, times } => {
                let clocking = Clocking {
                    until,
                    bound: self.bound,
                    breaks: self.breaks.as_slice(),
                    listing: &self.listing,
                };
                clocking.clock(times, &mut self.board, input, out, err)
            }
            Plan::Show(shown) => self.show(shown, err),
        }
    }

    /// Puts what the console keeps, and passes the answers on.
    fn flush<K: Sink, E: Sink>(&mut self, out: &mut K, err: &mut E) -> Result<(), SinkFailed>
        ensures shows { OnOk result (ShowsAs M.state (K.held out.old) self.old.board (K.held out.new) self.new.board (λ r. r)) }
        ensures front { OnErr result (HoldsFront M.state (K.held out.old) self.old.board (K.held out.new)) }
        ensures kept { self.new.board.bus.console.kept ≡ [] }
        ensures same { self.new ≡ record self.old { board = record self.old.board { bus = self.new.board.bus } } }
        ensures others { KeepsMemoryAndInput self.old.board.bus self.new.board.bus }
        ensures out { SinkGoesOn K.held K.passed (IsErr result) out.old out.new }
        ensures held { E.held err.new ≡ E.held err.old }
        ensures passed { OnOk result (IsFlushed (E.held err.new) (E.passed err.new)) }
        ensures cause { HasSinkCause (K.faults out.old) (K.faults out.new) (E.faults err.old) (E.faults err.new) result }
    {
        if self.board.flush(out).is_err() {
            return Err(SinkFailed);
        }
        err.flush()
    }

    /// Does what a line says, and puts the answer to `err`.
    pub fn command<S: Source, K: Sink, E: Sink>(
        &mut self,
        line: &[u8],
        input: &mut S,
        out: &mut K,
        err: &mut E,
    ) -> Result<Reply, SessionFault>
        ensures reply { IfOk result (λ reply. reply ≡ reply_of (plan_in self.old line.now)) }
        ensures obeys { OnOk result (Obeys M.state M.meaning line.now self.old self.new
            (streams S.left S.faults input.old K.held K.passed K.faults out.old E.held E.passed E.faults err.old)
            (streams S.left S.faults input.new K.held K.passed K.faults out.new E.held E.passed E.faults err.new)) }
        ensures broken { OnErr result (IsLineBroken M.state M.meaning line.now self.old self.new
            (streams S.left S.faults input.old K.held K.passed K.faults out.old E.held E.passed E.faults err.old)
            (streams S.left S.faults input.new K.held K.passed K.faults out.new E.held E.passed E.faults err.new)) }
        ensures input { self.old.board.end ≡ None → HasReadCause (S.faults input.old) (S.faults input.new) self.new.board.end }
        ensures same { KeepsRules self.old self.new }
        ensures keeps { KeepFronts (K.held out.old) (K.held out.new) (E.held err.old) (E.held err.new) }
    {
        let read = self.read(line);
        let plan = self.plan(read);
        self.carry_out(plan, input, out, err)?;
        self.flush(out, err)?;
        self.note(read);
        Ok(plan.reply())
    }
}

/// One more than the highest address from SP down in a memory of this many words.
fn over_stack(sp: u32, words: u32) -> u32
    ensures { result ≡ min (sp + 1) words }
{
    if sp < words { sp + 1 } else { words }
}

/// What a reply prints.
fn reply_text(reply: Reply) -> &'static str
    ensures { result.now ≡ reply_text reply }
{
    match reply {
        Reply::Done => "",
        Reply::Quit => "",
        Reply::BadCommand => "? bad command\n",
        Reply::BadNumber => "? bad number\n",
        Reply::TooManyBreaks => "? too many breaks\n",
        Reply::Ended => "? ended\n",
    }
}
