//! Memory and console in one address space: what the wires of a machine reach.

ghost use Rattle.mic_base.specs.Prelude.{IsFlushed};
ghost use Rattle.std.specs.Prelude.{◌/◌, ◌==◌, ◌≡◌, ◌≢◌, ◌≤◌, ◌<◌, [], ℕ, List, Option, Some, None, Ok, Err, true, false, length, replicate, IsTrue, ◌↔◌, IsSome, slice_get, slice_index, slice_set, IsOk, IfOk, OnOk, OnErr, IfErr};
ghost use Rattle.console_port.specs.Access.{IsAccess, IsByMap};
ghost use Rattle.console_port.specs.Bus.{Shows, Stands, IsLed, ChangesOnly, FailsAsRefused, refused_by, IsRead};
ghost use Rattle.console_port.specs.Console.{IsFault, HasFaultCause, most_kept};
ghost use Rattle.console_port.specs.Loading.{HasTextWords, IsLoaded};
ghost use Rattle.console_port.specs.Streams.{SinkGoesOn};
ghost use Rattle.console_port.specs.World.{World, console_at, read_refusal, write_refusal, word_refusal, fetch_refusal, byte_in, read_value, after_write};

use crate::console::Console;
use crate::fault::BusFault;
use crate::loading::write_image;
use crate::map::{CONSOLE, FRAME, MOST_POOL, MOST_TEXT, MemoryMap, STACK_SIDE};
use crate::pages::Pages;
use crate::word::byte_of;
use mic_base::{Sink, Source};
use std::alloc::{AllocError, Global};
use std::marker::Model;

/// Memory words and a console. The memory map decides what each access reaches.
#[derive(Drop)]
pub struct Bus {
    memory: Pages,
    console: Console,
}

impl Model for Bus {
    ghost use Rattle.console_port.specs.View.{BusView};

    ghost Value = { BusView };

    ghost view = { λ b. record { words = b.memory; console = b.console } };
}

impl Bus {
    /// All words are 0.
    pub fn new(alloc: Global, map: MemoryMap) -> Result<Bus, AllocError>
        ensures words { IfOk result (λ bus. bus.words ≡ replicate map.stack_end 0) }
        ensures kept { IfOk result (λ bus. bus.console.kept ≡ []) }
        ensures ended { IfOk result (λ bus. bus.console.ended ≡ false) }
    {
        Ok(Bus {
            memory: Pages::new(alloc, map.stack_end)?,
            console: Console::new(),
        })
    }

    /// Loads an image's text and pool.
    pub fn load(&mut self, text: &[u8], pool: &[u32])
        requires text { length text.now ≤ MOST_TEXT }
        requires pool { length pool.now ≤ MOST_POOL }
        requires memory { FRAME ≤ length self.old.words }
        ensures words { IsLoaded text.now pool.now self.old.words self.new.words }
        ensures text { HasTextWords text.now self.new.words }
        ensures console { self.new.console ≡ self.old.console }
    {
        write_image(&mut self.memory, text, pool);
    }

    /// Whether there is a memory word at this address.
    pub fn has(&self, at: u32) -> bool
        ensures { IsTrue result ↔ (at < length self.now.words) }
    {
        self.memory.has(at)
    }

    #[tactic(auto, unfolding(crate::specs::World::read_refusal))]
    pub fn check_read(&self, at: u32) -> Result<(), BusFault>
        ensures ok { OnOk result (read_refusal (length self.now.words) at ≡ None) }
        ensures err { FailsAsRefused (read_refusal (length self.now.words) at) result }
    {
        if self.has(at) || at == CONSOLE {
            Ok(())
        } else {
            Err(BusFault::OutOfMap(at))
        }
    }

    #[tactic(auto, unfolding(crate::specs::World::write_refusal))]
    pub fn check_write(&self, at: u32) -> Result<(), BusFault>
        ensures ok { OnOk result (write_refusal (length self.now.words) at ≡ None) }
        ensures err { FailsAsRefused (write_refusal (length self.now.words) at) result }
    {
        if self.has(at) || at == CONSOLE {
            Ok(())
        } else if at < STACK_SIDE {
            Err(BusFault::StackLimit(at))
        } else {
            Err(BusFault::OutOfMap(at))
        }
    }

    /// Tests a fetch at a byte address.
    #[tactic(auto, unfolding(crate::specs::World::fetch_refusal))]
    pub fn check_fetch(&self, byte: u32) -> Result<(), BusFault>
        ensures ok { OnOk result (fetch_refusal (length self.now.words) byte ≡ None) }
        ensures err { FailsAsRefused (fetch_refusal (length self.now.words) byte) result }
    {
        if self.has(byte / 4) {
            Ok(())
        } else {
            Err(BusFault::OutOfMap(byte / 4))
        }
    }

    /// The memory word there, or none where there is no memory.
    pub fn peek(&self, at: u32) -> Option<u32>
        ensures { result ≡ slice_get self.now.words at }
    {
        self.memory.get(at)
    }

    #[tactic(auto, unfolding(crate::specs::World::read_refusal, crate::specs::World::read_value, crate::specs::World::untaken_after))]
    pub fn read_word<S: Source, K: Sink>(
        &mut self,
        at: u32,
        source: &mut S,
        sink: &mut K,
    ) -> Result<u32, BusFault>
        ensures map { IsByMap (read_refusal (length self.old.words) at) at
            ((self.new ≡ self.old) × (source.new ≡ source.old) × (sink.new ≡ sink.old)) IsFault result }
        ensures ok { IfOk result (λ value.
            IsLed (S.left source.old) (K.held sink.old) self.old (S.left source.new) (K.held sink.new) self.new (IsRead (length self.old.words) at value)) }
        ensures access { IsAccess S.left S.faults K.held K.passed K.faults (λ w e. refused_by (read_refusal (length self.old.words) at) ≡ Some e)
            (at == console_at) (at == console_at) source.old source.new sink.old sink.new self.old self.new result }
        ensures empty { self.old.console.kept ≡ [] → sink.new ≡ sink.old }
        ensures words { self.new.words ≡ self.old.words }
        ensures memory { at < length self.old.words →
            (result ≡ Ok (slice_index self.old.words at)) × (self.new ≡ self.old) × (source.new ≡ source.old) × (sink.new ≡ sink.old) }
    {
        if self.has(at) {
            return Ok(self.memory.word(at));
        }
        if at != CONSOLE {
            return Err(BusFault::OutOfMap(at));
        }
        let byte = self.console.take(source, sink)?;
        Ok(byte as u32)
    }

    #[tactic(auto, unfolding(crate::specs::World::write_refusal, crate::specs::World::given_after))]
    pub fn write_word<K: Sink>(&mut self, at: u32, value: u32, sink: &mut K) -> Result<(), BusFault>
        ensures map { IsByMap (write_refusal (length self.old.words) at) at
            ((self.new ≡ self.old) × (sink.new ≡ sink.old)) (λ e. e ≡ BusFault.WriteFault) result }
        ensures ok { OnOk result ((left : Option (List ℕ)) (w : World) →
            Shows left (K.held sink.old) self.old w → Shows left (K.held sink.new) self.new (after_write (length self.old.words) w at value)) }
        ensures err { (left : Option (List ℕ)) → IfErr result (Stands left (K.held sink.old) self.old left (K.held sink.new) self.new) }
        ensures words { OnOk result (self.new.words ≡ slice_set self.old.words at value) }
        ensures others { ChangesOnly at self.old.words self.new.words × (self.new.console.ended ≡ self.old.console.ended) }
        ensures memory { at < length self.old.words → IsOk result × (self.new.console ≡ self.old.console) × (sink.new ≡ sink.old) }
        ensures waits { length self.old.console.kept < most_kept → sink.new ≡ sink.old }
        ensures sink { SinkGoesOn K.held K.passed (result ≡ Err BusFault.WriteFault) sink.old sink.new }
        ensures cause { HasFaultCause 0 0 (K.faults sink.old) (K.faults sink.new) result }
    {
        if self.has(at) {
            self.memory.set(at, value);
            return Ok(());
        }
        if at != CONSOLE {
            if at < STACK_SIDE {
                return Err(BusFault::StackLimit(at));
            }
            return Err(BusFault::OutOfMap(at));
        }
        self.console.give((value % 256) as u8, sink)
    }

    /// Writes where that needs no sink: to the memory, or to a console that has room for the byte. Any other write is
    /// not done.
    #[inline(always)]
    #[tactic(auto, unfolding(crate::specs::World::write_refusal, crate::specs::World::given_after))]
    pub fn write_here(&mut self, at: u32, value: u32) -> bool
        ensures clear { result ≡ true → write_refusal (length self.old.words) at ≡ None }
        ensures shows { result ≡ true → (left held : Option (List ℕ)) (w : World) →
            Shows left held self.old w → Shows left held self.new (after_write (length self.old.words) w at value) }
        ensures others { ChangesOnly at self.old.words self.new.words × (self.new.console.ended ≡ self.old.console.ended) }
        ensures memory { at < length self.old.words → result ≡ true }
        ensures room { at ≡ console_at → length self.old.console.kept < most_kept → result ≡ true }
        ensures stays { result ≡ false → self.new ≡ self.old }
    {
        if self.has(at) {
            self.memory.set(at, value);
            return true;
        }
        if at == CONSOLE && self.console.has_room() {
            self.console.keep((value % 256) as u8);
            return true;
        }
        false
    }

    /// The byte at a byte address.
    #[tactic(auto, unfolding(crate::specs::World::fetch_refusal))]
    pub fn fetch_byte(&self, byte: u32) -> Result<u8, BusFault>
        ensures ok { IfOk result (λ value. value ≡ byte_in self.now.words byte) }
        ensures allowed { OnOk result (fetch_refusal (length self.now.words) byte ≡ None) }
        ensures err { FailsAsRefused (fetch_refusal (length self.now.words) byte) result }
    {
        if self.has(byte / 4) {
            Ok(self.byte(byte))
        } else {
            Err(BusFault::OutOfMap(byte / 4))
        }
    }

    /// The memory word at a word address.
    #[tactic(auto, unfolding(crate::specs::World::word_refusal))]
    pub fn fetch_word(&self, at: u32) -> Result<u32, BusFault>
        ensures ok { IfOk result (λ value. value ≡ slice_index self.now.words at) }
        ensures allowed { OnOk result (word_refusal (length self.now.words) at ≡ None) }
        ensures err { FailsAsRefused (word_refusal (length self.now.words) at) result }
    {
        if self.has(at) {
            Ok(self.word(at))
        } else {
            Err(BusFault::OutOfMap(at))
        }
    }

    /// The memory word there.
    pub fn word(&self, at: u32) -> u32
        requires { at < length self.now.words }
        ensures { result ≡ slice_index self.now.words at }
    {
        self.memory.word(at)
    }

    /// Stores a memory word.
    pub fn set_word(&mut self, at: u32, value: u32)
        requires { at < length self.old.words }
        ensures words { self.new.words ≡ slice_set self.old.words at value }
        ensures console { self.new.console ≡ self.old.console }
    {
        self.memory.set(at, value);
    }

    /// The byte at a byte address of the memory.
    #[tactic(auto, unfolding(crate::specs::World::byte_in))]
    pub fn byte(&self, byte: u32) -> u8
        requires { byte / 4 < length self.now.words }
        ensures { result ≡ byte_in self.now.words byte }
    {
        byte_of(self.word(byte / 4), byte % 4)
    }

    /// Puts the console's kept bytes to the sink.
    pub fn flush<K: Sink>(&mut self, sink: &mut K) -> Result<(), BusFault>
        ensures kept { self.new.console.kept ≡ [] }
        ensures others { (self.new.words ≡ self.old.words) × (self.new.console.ended ≡ self.old.console.ended) }
        ensures ok { OnOk result ((left : Option (List ℕ)) (w : World) → Shows left (K.held sink.old) self.old w → Shows left (K.held sink.new) self.new w) }
        ensures err { (left : Option (List ℕ)) → IfErr result (Stands left (K.held sink.old) self.old left (K.held sink.new) self.new) }
        ensures empty { self.old.console.kept ≡ [] → IsOk result × (self.new ≡ self.old) × (sink.new ≡ sink.old) }
        ensures fault { IfErr result (λ e. e ≡ BusFault.WriteFault) }
        ensures sink { SinkGoesOn K.held K.passed (result ≡ Err BusFault.WriteFault) sink.old sink.new }
        ensures flushed { OnOk result ((self.old.console.kept ≡ [] →
            IsFlushed (K.held sink.old) (K.passed sink.old)) → IsFlushed (K.held sink.new) (K.passed sink.new)) }
        ensures cause { HasFaultCause 0 0 (K.faults sink.old) (K.faults sink.new) result }
    {
        self.console.flush(sink)
    }
}
