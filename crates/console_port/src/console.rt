//! The console: bytes given wait in a buffer, and bytes taken come from a source.

ghost use Rattle.mic_base.specs.Prelude.{HasCause, IsFlushed, PutsAndFlushes};
ghost use Rattle.std.specs.Prelude.{◌≡◌, ◌≢◌, ◌<◌, ◌+◌, [], ◌∷◌, ◌++◌, ◌↔◌, ℕ, List, Option, IsTrue, false, true, drop, length, Ok, IsOk, IsErr, IfOk, OnOk, OnErr, IfErr, IsErrOf, Some, Err};
ghost use Rattle.console_port.specs.Console.{Asks, Untaken, Given, Gives, IsLost, TakeFails, HasFaultCause, most_kept};
ghost use Rattle.console_port.specs.Streams.{SinkGoesOn, SourceGoesOn};
ghost use Rattle.console_port.specs.World.{next_byte};

use crate::fault::BusFault;
use arrayvec::ArrayVec;
use mic_base::{Sink, SinkFailed, Source};
use std::marker::Model;

/// The most bytes that a console keeps.
pub const MOST_KEPT: usize = 4096;

/// Keeps given bytes until a sink takes them, and knows whether it met the end of input.
#[derive(Drop)]
pub struct Console {
    buffer: ArrayVec<u8, MOST_KEPT>,
    ended: bool,
}

impl Model for Console {
    ghost use Rattle.console_port.specs.View.{ConsoleView};

    ghost Value = { ConsoleView };

    ghost view = { λ c. record { kept = c.buffer.items; ended = c.ended } };
}

impl Console {
    pub fn new() -> Console
        ensures kept { result.kept ≡ [] }
        ensures ended { result.ended ≡ false }
    {
        Console {
            buffer: ArrayVec::new(),
            ended: false,
        }
    }

    /// The next input byte, or 0 at the end of input. The kept bytes go to the sink before the source is asked.
    #[tactic(auto, using(crate::proofs::Taken::told_as, crate::proofs::Taken::told_taken, crate::proofs::Taken::told_ended))]
    pub fn take<S: Source, K: Sink>(&mut self, source: &mut S, sink: &mut K) -> Result<u8, BusFault>
        ensures ok { IfOk result (λ byte. (rest : List ℕ) → Untaken (S.left source.new) self.new.ended rest →
            (untaken : List ℕ) × Untaken (S.left source.old) self.old.ended untaken × (byte ≡ next_byte untaken) × (drop 1 untaken ≡ rest)) }
        ensures given { (IsErrOf result BusFault.WriteFault → ⊥) →
            (given : List ℕ) → Given (K.held sink.old) self.old.kept given → Given (K.held sink.new) self.new.kept given }
        ensures err { IfErr result (TakeFails (S.left source.old) (K.held sink.old) self.old (S.left source.new) (K.held sink.new) self.new) }
        ensures told { self.old.ended ≡ false → (self.new.kept ≡ []) × ((bytes : List ℕ) → S.left source.old ≡ Some bytes →
            OnOk result (Asks bytes (S.left source.new) self.new.ended)) }
        ensures at_end { self.old.ended ≡ true → (result ≡ Ok 0) × (self.new ≡ self.old) × (source.new ≡ source.old) × (sink.new ≡ sink.old) }
        ensures empty { self.old.kept ≡ [] → (sink.new ≡ sink.old) × (result ≢ Err BusFault.WriteFault) }
        ensures source { SourceGoesOn S.left self.old.ended source.old self.new.ended source.new }
        ensures sink { SinkGoesOn K.held K.passed (result ≡ Err BusFault.WriteFault) sink.old sink.new }
        ensures cause { HasFaultCause (S.faults source.old) (S.faults source.new) (K.faults sink.old) (K.faults sink.new) result }
    {
        if self.ended {
            return Ok(0);
        }
        self.flush(sink)?;
        match source.get() {
            Ok(Some(byte)) => Ok(byte),
            Ok(None) => {
                self.ended = true;
                Ok(0)
            }
            Err(_) => Err(BusFault::ReadFault),
        }
    }

    /// Whether one byte more can wait.
    pub fn has_room(&self) -> bool
        ensures { IsTrue result ↔ (length self.now.kept < most_kept) }
    {
        !self.buffer.is_full()
    }

    /// Keeps a byte, for which there is room.
    pub fn keep(&mut self, byte: u8)
        requires { length self.old.kept < most_kept }
        ensures kept { self.new.kept ≡ self.old.kept ++ byte ∷ [] }
        ensures gives { (held : Option (List ℕ)) → Gives (byte ∷ []) held self.old.kept held self.new.kept }
        ensures ended { self.new.ended ≡ self.old.ended }
    {
        self.buffer.push(byte);
    }

    /// Keeps a byte. A full buffer goes to the sink first.
    pub fn give<K: Sink>(&mut self, byte: u8, sink: &mut K) -> Result<(), BusFault>
        ensures ended { self.new.ended ≡ self.old.ended }
        ensures ok { OnOk result (Gives (byte ∷ []) (K.held sink.old) self.old.kept (K.held sink.new) self.new.kept) }
        ensures lost { OnErr result (IsLost (K.held sink.old) self.old.kept (K.held sink.new) self.new.kept) }
        ensures fault { IfErr result (λ e. e ≡ BusFault.WriteFault) }
        ensures roomy { length self.old.kept < most_kept → IsOk result × (self.new.kept ≡ self.old.kept ++ byte ∷ []) × (sink.new ≡ sink.old) }
        ensures full { length self.old.kept ≡ most_kept → OnOk result (self.new.kept ≡ byte ∷ []) }
        ensures sink { SinkGoesOn K.held K.passed (result ≡ Err BusFault.WriteFault) sink.old sink.new }
        ensures cause { HasFaultCause 0 0 (K.faults sink.old) (K.faults sink.new) result }
    {
        if !self.has_room() {
            return self.give_to_full(byte, sink);
        }
        self.keep(byte);
        Ok(())
    }

    /// Puts the kept bytes to the sink, and then keeps the byte. It stands apart because few calls of `give` need it.
    #[cold]
    #[inline(never)]
    fn give_to_full<K: Sink>(&mut self, byte: u8, sink: &mut K) -> Result<(), BusFault>
        ensures ended { self.new.ended ≡ self.old.ended }
        ensures ok { OnOk result (Gives (byte ∷ []) (K.held sink.old) self.old.kept (K.held sink.new) self.new.kept) }
        ensures kept { OnOk result (self.new.kept ≡ byte ∷ []) }
        ensures lost { OnErr result (IsLost (K.held sink.old) self.old.kept (K.held sink.new) self.new.kept) }
        ensures fault { IfErr result (λ e. e ≡ BusFault.WriteFault) }
        ensures sink { SinkGoesOn K.held K.passed (result ≡ Err BusFault.WriteFault) sink.old sink.new }
        ensures cause { HasFaultCause 0 0 (K.faults sink.old) (K.faults sink.new) result }
    {
        self.flush(sink)?;
        self.buffer.push(byte);
        Ok(())
    }

    /// Puts the kept bytes to the sink and flushes it, or does nothing where none are kept.
    pub fn flush<K: Sink>(&mut self, sink: &mut K) -> Result<(), BusFault>
        ensures ended { self.new.ended ≡ self.old.ended }
        ensures kept { self.new.kept ≡ [] }
        ensures ok { OnOk result ((given : List ℕ) → Given (K.held sink.old) self.old.kept given → Given (K.held sink.new) self.new.kept given) }
        ensures empty { self.old.kept ≡ [] → IsOk result × (self.new ≡ self.old) × (sink.new ≡ sink.old) }
        ensures lost { OnErr result (IsLost (K.held sink.old) self.old.kept (K.held sink.new) self.new.kept) }
        ensures fault { IfErr result (λ e. e ≡ BusFault.WriteFault) }
        ensures sink { SinkGoesOn K.held K.passed (result ≡ Err BusFault.WriteFault) sink.old sink.new }
        ensures flushed { OnOk result ((self.old.kept ≡ [] →
            IsFlushed (K.held sink.old) (K.passed sink.old)) → IsFlushed (K.held sink.new) (K.passed sink.new)) }
        ensures cause { HasFaultCause 0 0 (K.faults sink.old) (K.faults sink.new) result }
    {
        if self.buffer.is_empty() {
            return Ok(());
        }
        let put = put_and_flush(sink, self.buffer.as_slice());
        self.buffer.clear();
        match put {
            Ok(()) => Ok(()),
            Err(_) => Err(BusFault::WriteFault),
        }
    }
}

#[tactic(auto, using(crate::proofs::Put::flushed_put))]
fn put_and_flush<K: Sink>(sink: &mut K, piece: &[u8]) -> Result<(), SinkFailed>
    ensures puts { PutsAndFlushes (K.held sink.old) piece.now result (K.held sink.new) (K.passed sink.new) }
    ensures sink { SinkGoesOn K.held K.passed (IsErr result) sink.old sink.new }
    ensures cause { HasCause (K.faults sink.old) (K.faults sink.new) result }
{
    sink.put(piece)?;
    sink.flush()
}
