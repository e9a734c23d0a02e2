//! The run of an accepted program with a cache beside it.

ghost use Rattle.std.specs.Prelude.{◌≡◌, ◌≤◌, ◌<◌, ◌%◌, ◌^◌, IfOk, length};
ghost use Rattle.cli_watchers.specs.Prelude.{kept_in, start_kept};
ghost use Rattle.cli_clocked.specs.Cached.{HasImage, IsCached};
ghost use Rattle.cli_clocked.specs.Runs.{OverPrepared};

use crate::microprogram::Microprogram;
use crate::preparing::Prepared;
use crate::report::say_after;
use cli_outside::{Outside, Status};
use cli_run_texts::{clocked_report, status_of};
use cli_watchers::{CacheWatcher, a_cache_counts_the_run, accesses_in, cache_line};
use console_port::Bus;
use ijvm_simulation::reset_board;
use ijvm_verifier::VerifiedImage;
use mal_shipped::Loaded;
use mem_cache::CachedBus;
use mic_base::{Files, PlainSink, Sink, Source};
use mic_clock::Clocked;
use mic_watched::run_watched;
use micro_word::Store;
use std::alloc::{AllocError, Global};

/// A memory with an image loaded, which is whole blocks of four words.
#[tactic(auto, using(crate::proofs::Caching::whole_blocks))]
fn loaded_bus(alloc: Global, program: &VerifiedImage) -> Result<Bus, AllocError>
    ensures loaded { IfOk result (λ bus. HasImage program.now bus.words) }
    ensures size { IfOk result (λ bus. length bus.words ≡ program.now.map.stack_end) }
    ensures whole { IfOk result (λ bus. length bus.words % 4 ≡ 0) }
{
    let mut bus = Bus::new(alloc, program.map())?;
    bus.load(program.image().text(), program.image().pool());
    Ok(bus)
}

/// A cache that begins empty, before a memory of its own with the image loaded, and what each word of the control store asks of it.
fn cache_watcher(
    alloc: Global,
    store: &Store,
    lines: u16,
    program: &VerifiedImage,
) -> Result<CacheWatcher, AllocError>
    requires { (0 < lines) × (lines ≤ 4096) }
    ensures kept { IfOk result (λ w. kept_in w ≡ start_kept store.now.machine store.now.words lines w.cache.bus.words) }
    ensures loaded { IfOk result (λ w. HasImage program.now w.cache.bus.words) }
    ensures size { IfOk result (λ w. length w.cache.bus.words ≡ program.now.map.stack_end) }
{
    let accesses = accesses_in(alloc, store)?;
    let bus = loaded_bus(alloc, program)?;
    let cache = CachedBus::new(alloc, lines, bus)?;
    Ok(CacheWatcher { accesses, cache })
}

/// Clocks an accepted program with a microprogram to its end, repeats its accesses of memory on a cache of this many
/// lines, reports, and then prints what the cache counted.
pub fn cache_program<M: Clocked + Drop, F: Files, S: Source, K: Sink, E: Sink>(
    alloc: Global,
    machine: M,
    prepared: Prepared,
    lines: u16,
    bound: u64,
    outside: &mut Outside<'_, F, S, K, E>,
) -> Status
    requires machine { prepared.micro.program.machine ≡ M.meaning.machine }
    requires lines { (0 < lines) × (lines ≤ 4096) }
    requires bound { bound ≤ 2 ^ 61 }
    ensures { OverPrepared (IsCached M.state M.meaning lines bound) prepared outside.old outside.new result.0 }
{
    let Prepared { program, micro } = prepared;
    let Microprogram { loaded, .. } = micro;
    let Loaded { store, entry, .. } = loaded;
    let mut watcher = match cache_watcher(alloc, &store, lines, &program) {
        Ok(watcher) => watcher,
        Err(_) => return outside.no_memory(),
    };
    let mut board = match reset_board(alloc, machine, store, entry, &program) {
        Ok(board) => board,
        Err(_) => return outside.no_memory(),
    };
    a_cache_counts_the_run();
    match run_watched(
        &mut board,
        bound,
        &mut watcher,
        outside.console,
        outside.out,
        &mut PlainSink::new(),
    ) {
        Ok(end) => {
            let report = clocked_report(end, &board.counts(), &board.registers());
            let said = outside.err.put(report.bytes());
            let line = cache_line(lines, watcher.cache.counts());
            say_after(said, line.bytes(), status_of(end), outside.err)
        }
        Err(_) => unreachable!(),
    }
}
