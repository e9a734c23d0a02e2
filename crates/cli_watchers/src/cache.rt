//! Repeats the accesses of a run's cycles on a cache.

ghost use Rattle.std.specs.Prelude.{◌≡◌, ◌≤◌, ◌<◌, ◌+◌, ◌^◌, IfOk, length, map, true};
ghost use Rattle.mem_cache.specs.Prelude.{Access, Counts};
ghost use Rattle.cli_watchers.specs.Cached.{CountsAll, access_at, access_in, accesses_by, after_access, after_write, at_mar, at_pc, cache_line, has_room};

use mem_cache::{CacheCounts, CachedBus};
use mic_base::{Line, PlainSink, Sink, SinkFailed};
use mic_clock::Registers;
use mic_watched::{Cycle, Watcher};
use micro_word::{Machine, Mem, Store, bits};
use std::alloc::{AllocError, Global};

/// What a word asks of memory: of the word at MAR, and of the byte at PC.
#[derive(Clone, Copy, Debug, PartialEq, Eq)]
pub struct WordAccess {
    pub mem: Mem,
    pub fetch: bool,
}

/// What a word asks of memory.
#[tactic(auto, unfolding(micro_word::specs::Coding::statement_of))]
fn access_in(machine: Machine, word: u64) -> WordAccess
    ensures { result ≡ access_in machine word }
{
    WordAccess {
        mem: Mem::of_bits(bits::mem(machine, word)),
        fetch: bits::fetch(machine, word),
    }
}

/// What each word of a control store asks of memory.
pub fn accesses_in(alloc: Global, store: &Store) -> Result<Vec<WordAccess>, AllocError>
    ensures { IfOk result (λ accesses. accesses.items ≡ map (access_in store.now.machine) store.now.words) }
{
    let machine = store.machine();
    let mut accesses = Vec::new(alloc);
    for address in 0..512 {
        accesses.push(access_in(machine, store.word(address)))?;
    }
    Ok(accesses)
}

/// What the word at an address asks of memory.
fn access_at(accesses: &[WordAccess], address: u16) -> WordAccess
    ensures { result ≡ access_at accesses.now address }
{
    match accesses.get(usize::from(address)) {
        Some(access) => *access,
        None => WordAccess {
            mem: Mem::None,
            fetch: false,
        },
    }
}

/// The greatest count from which a cycle may go on.
const MOST_COUNT: u64 = 0x7FFF_FFFF_FFFF_FFFF;

fn has_room(counts: CacheCounts) -> bool
    ensures { result ≡ has_room counts }
{
    counts.hits < MOST_COUNT && counts.misses < MOST_COUNT
}

/// Repeats a read of a memory word.
#[tactic(auto, using(crate::proofs::Caching::read_past))]
fn read(cache: &mut CachedBus, at: u32)
    requires { (cache.old.tally.counts.hits < 2 ^ 63) × (cache.old.tally.counts.misses < 2 ^ 63) }
    ensures bus { cache.new.bus ≡ cache.old.bus }
    ensures counted { Counts (Access.Read at) cache.old cache.new }
{
    if cache.has(at) {
        cache.load(at);
    }
}

/// Repeats a fetch of a memory word's byte.
#[tactic(auto, using(crate::proofs::Caching::fetch_past))]
fn fetch(cache: &mut CachedBus, byte: u32)
    requires { (cache.old.tally.counts.hits < 2 ^ 63) × (cache.old.tally.counts.misses < 2 ^ 63) }
    ensures bus { cache.new.bus ≡ cache.old.bus }
    ensures counted { Counts (Access.Fetch byte) cache.old cache.new }
{
    if cache.has(byte / 4) {
        cache.load(byte / 4);
    }
}

/// Repeats a write of a memory word.
fn write(cache: &mut CachedBus, at: u32, value: u32)
    ensures size { length cache.new.bus.words ≡ length cache.old.bus.words }
    ensures words { cache.new.bus.words ≡ after_write cache.old.bus.words at value }
    ensures counted { Counts (Access.Write at) cache.old cache.new }
{
    if cache.has(at) {
        let _done = cache.write_word(at, value, &mut PlainSink::new());
    }
}

/// Repeats the access at MAR.
fn repeat_at_mar(cache: &mut CachedBus, mem: Mem, mar: u32, mdr: u32)
    requires { (cache.old.tally.counts.hits < 2 ^ 63) × (cache.old.tally.counts.misses < 2 ^ 63) }
    ensures size { length cache.new.bus.words ≡ length cache.old.bus.words }
    ensures words { cache.new.bus.words ≡ after_access mem mar mdr cache.old.bus.words }
    ensures counted { CountsAll (at_mar mem mar) cache.old cache.new }
{
    match mem {
        Mem::None => {}
        Mem::Read => read(cache, mar),
        Mem::Write => write(cache, mar, mdr),
    }
}

/// Repeats the access at PC.
fn repeat_at_pc(cache: &mut CachedBus, is_fetched: bool, pc: u32)
    requires { (cache.old.tally.counts.hits < 2 ^ 63) × (cache.old.tally.counts.misses < 2 ^ 63) }
    ensures words { cache.new.bus.words ≡ cache.old.bus.words }
    ensures counted { CountsAll (at_pc is_fetched pc) cache.old cache.new }
{
    if is_fetched {
        fetch(cache, pc);
    }
}

/// Repeats the accesses of a word, with the registers as they are after its edge.
fn repeat(cache: &mut CachedBus, access: WordAccess, registers: &Registers)
    requires { has_room cache.old.tally.counts ≡ true }
    ensures words { cache.new.bus.words ≡ after_access access.mem registers.now.mar registers.now.mdr cache.old.bus.words }
    ensures counted { CountsAll (accesses_by access registers.now) cache.old cache.new }
{
    repeat_at_mar(cache, access.mem, registers.mar, registers.mdr);
    repeat_at_pc(cache, access.fetch, registers.pc);
}

/// Repeats on a cache, with a memory of its own, the accesses that each cycle makes.
#[derive(Drop)]
pub struct CacheWatcher {
    pub accesses: Vec<WordAccess>,
    pub cache: CachedBus,
}

impl Watcher for CacheWatcher {
    ghost use Rattle.cli_watchers.specs.Cached.{CacheKept, SaysNothing, kept_after, kept_in};

    ghost Kept = { CacheKept };

    ghost kept = { λ w. kept_in w };

    ghost keeps = { kept_after };

    ghost Prints = { SaysNothing };

    fn see<E: Sink>(&mut self, cycle: &Cycle, _err: &mut E) -> Result<(), SinkFailed> {
        if has_room(self.cache.counts()) {
            repeat(
                &mut self.cache,
                access_at(&self.accesses, cycle.mpc),
                &cycle.registers,
            );
        }
        Ok(())
    }
}

/// `cache lines L hits H misses M`.
pub fn cache_line(lines: u16, counts: CacheCounts) -> Line
    ensures { result ≡ cache_line lines counts }
{
    let mut line = Line::numbered("cache lines ", u64::from(lines));
    line.number(" hits ", counts.hits);
    line.number(" misses ", counts.misses);
    line.text("\n");
    line
}
