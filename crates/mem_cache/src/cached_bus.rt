//! A bus behind a direct-mapped cache.

ghost use Rattle.std.specs.Prelude.{◌==◌, ◌≡◌, ◌≢◌, ◌≤◌, ◌<◌, ◌%◌, ◌^◌, ℕ, List, Option, Some, None, Ok, Err, true, [], length, slice_index, slice_set, slice_get, map, nat_lt, IsOk, IsSome, IfOk, OnOk, OnErr, IfErr};
ghost use Rattle.console_port.specs.Prelude.{IsAccess, IsByMap, ChangesOnly, FailsAsRefused, Shows, Stands, IsLed, IsRead, refused_by, HasFaultCause, IsFault, most_kept, SinkGoesOn, World, after_write, byte_in, console_at, fetch_refusal, read_refusal, write_refusal};
ghost use Rattle.mem_cache.specs.Accesses.{Access};
ghost use Rattle.mem_cache.specs.Tally.{empty_tally};
ghost use Rattle.mem_cache.specs.View.{Counts};

use crate::counts::CacheCounts;
use crate::lines::{CacheLine, change, hold, line_of, words_of};
use console_port::{Bus, BusFault, byte_of};
use mic_base::{Sink, Source};
use std::alloc::{AllocError, Global};
use std::marker::Model;

/// A bus, and blocks of its memory in lines. A read or fetch of a memory word loads a block that its line does not hold.
/// A write goes through to memory, changes a block that is held, and loads none. Accesses of the console and
/// refused accesses bypass the lines.
#[derive(Drop)]
pub struct CachedBus {
    bus: Bus,
    lines: Vec<Option<CacheLine>>,
    counts: CacheCounts,
}

impl Model for CachedBus {
    ghost use Rattle.std.specs.Prelude.{map};
    ghost use Rattle.mem_cache.specs.View.{CacheView};
    ghost use Rattle.mem_cache.specs.Lines.{AreLines, block_in};

    ghost Value = { CacheView };

    ghost view = { λ c. record { bus = c.bus; tally = record { held = map block_in c.lines.items; counts = c.counts } } };

    ghost invariant = { λ c. AreLines c.bus.words c.lines.items };
}

impl CachedBus {
    /// An empty cache of `lines` lines in front of a bus.
    pub fn new(alloc: Global, lines: u16, bus: Bus) -> Result<CachedBus, AllocError>
        requires lines { (0 < lines) × (lines ≤ 4096) }
        requires whole { length bus.words % 4 ≡ 0 }
        ensures bus { IfOk result (λ cached. cached.bus ≡ bus) }
        ensures empty { IfOk result (λ cached. cached.tally ≡ empty_tally lines) }
    {
        let mut held = Vec::new(alloc);
        for _line in 0..lines {
            held.push(None)?;
        }
        Ok(CachedBus {
            bus,
            lines: held,
            counts: CacheCounts { hits: 0, misses: 0 },
        })
    }

    /// Whether there is a memory word at this address.
    pub fn has(&self, at: u32) -> bool
        ensures { result ≡ nat_lt at (length self.now.bus.words) }
    {
        self.bus.has(at)
    }

    /// The memory word there, from the line of its block.
    pub fn load(&mut self, at: u32) -> u32
        requires memory { at < length self.old.bus.words }
        requires counts { (self.old.tally.counts.hits < 2 ^ 63) × (self.old.tally.counts.misses < 2 ^ 63) }
        ensures value { result ≡ slice_index self.old.bus.words at }
        ensures bus { self.new.bus ≡ self.old.bus }
        ensures counts { Counts (Access.Read at) self.old self.new }
    {
        let block = at / 4;
        let place = (at % 4) as usize;
        if let Some(line) = line_of(&self.lines, block) {
            self.counts.hits += 1;
            return line.words[place];
        }
        self.counts.misses += 1;
        let words = words_of(&self.bus, block);
        hold(&mut self.lines, CacheLine { block, words });
        words[place]
    }

    /// Reads as the bus does, but a memory word from its line.
    #[tactic(auto, unfolding(console_port::specs::World::read_refusal, console_port::specs::World::read_value, console_port::specs::World::untaken_after))]
    pub fn read_word<S: Source, K: Sink>(
        &mut self,
        at: u32,
        source: &mut S,
        sink: &mut K,
    ) -> Result<u32, BusFault>
        requires { (self.old.tally.counts.hits < 2 ^ 63) × (self.old.tally.counts.misses < 2 ^ 63) }
        ensures map { IsByMap (read_refusal (length self.old.bus.words) at) at
            ((self.new.bus ≡ self.old.bus) × (source.new ≡ source.old) × (sink.new ≡ sink.old)) IsFault result }
        ensures ok { IfOk result (λ value.
            IsLed (S.left source.old) (K.held sink.old) self.old.bus (S.left source.new)
            (K.held sink.new) self.new.bus (IsRead (length self.old.bus.words) at value)) }
        ensures access { IsAccess S.left S.faults K.held K.passed K.faults (λ w e. refused_by (read_refusal (length self.old.bus.words) at) ≡ Some e)
            (at == console_at) (at == console_at) source.old source.new sink.old sink.new self.old.bus self.new.bus result }
        ensures empty { self.old.bus.console.kept ≡ [] → sink.new ≡ sink.old }
        ensures words { self.new.bus.words ≡ self.old.bus.words }
        ensures memory { at < length self.old.bus.words →
            (result ≡ Ok (slice_index self.old.bus.words at)) × (self.new.bus ≡ self.old.bus) × (source.new ≡ source.old) × (sink.new ≡ sink.old) }
        ensures counts { OnOk result (Counts (Access.Read at) self.old self.new) }
        ensures uncounted { OnErr result (self.new.tally ≡ self.old.tally) }
    {
        if !self.bus.has(at) {
            return self.bus.read_word(at, source, sink);
        }
        Ok(self.load(at))
    }

    /// Fetches as the bus does, but from the line of the byte's word.
    #[tactic(auto, unfolding(console_port::specs::World::fetch_refusal, console_port::specs::World::byte_in))]
    pub fn fetch_byte(&mut self, byte: u32) -> Result<u8, BusFault>
        requires { (self.old.tally.counts.hits < 2 ^ 63) × (self.old.tally.counts.misses < 2 ^ 63) }
        ensures ok { IfOk result (λ value. value ≡ byte_in self.old.bus.words byte) }
        ensures allowed { OnOk result (fetch_refusal (length self.old.bus.words) byte ≡ None) }
        ensures err { FailsAsRefused (fetch_refusal (length self.old.bus.words) byte) result }
        ensures bus { self.new.bus ≡ self.old.bus }
        ensures counts { OnOk result (Counts (Access.Fetch byte) self.old self.new) }
        ensures uncounted { OnErr result (self.new.tally ≡ self.old.tally) }
    {
        if !self.bus.has(byte / 4) {
            return Err(BusFault::OutOfMap(byte / 4));
        }
        Ok(byte_of(self.load(byte / 4), byte % 4))
    }

    /// Writes as the bus does: through to memory, and into a line that holds the block.
    #[tactic(auto, unfolding(console_port::specs::World::write_refusal, console_port::specs::World::given_after))]
    pub fn write_word<K: Sink>(&mut self, at: u32, value: u32, sink: &mut K) -> Result<(), BusFault>
        ensures map { IsByMap (write_refusal (length self.old.bus.words) at) at
            ((self.new ≡ self.old) × (sink.new ≡ sink.old)) (λ e. e ≡ BusFault.WriteFault) result }
        ensures ok { OnOk result ((left : Option (List ℕ)) (w : World) →
            Shows left (K.held sink.old) self.old.bus w → Shows left (K.held sink.new) self.new.bus (after_write (length self.old.bus.words) w at value)) }
        ensures err { (left : Option (List ℕ)) → IfErr result (Stands left (K.held sink.old) self.old.bus left (K.held sink.new) self.new.bus) }
        ensures words { OnOk result (self.new.bus.words ≡ slice_set self.old.bus.words at value) × ChangesOnly at self.old.bus.words self.new.bus.words }
        ensures same { (self.new.bus.console.ended ≡ self.old.bus.console.ended) × (self.new.tally ≡ self.old.tally) }
        ensures memory { at < length self.old.bus.words → IsOk result × (self.new.bus.console ≡ self.old.bus.console) × (sink.new ≡ sink.old) }
        ensures waits { length self.old.bus.console.kept < most_kept → sink.new ≡ sink.old }
        ensures sink { SinkGoesOn K.held K.passed (result ≡ Err BusFault.WriteFault) sink.old sink.new }
        ensures cause { HasFaultCause 0 0 (K.faults sink.old) (K.faults sink.new) result }
    {
        self.bus.write_word(at, value, sink)?;
        change(&mut self.lines, at, value);
        Ok(())
    }

    pub fn counts(&self) -> CacheCounts
        ensures { result ≡ self.now.tally.counts }
    {
        self.counts
    }
}
