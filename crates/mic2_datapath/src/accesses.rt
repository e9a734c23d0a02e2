//! The accesses of a cycle: their addresses are tested before anything is changed.

ghost use Rattle.std.specs.Prelude.{◌≡◌, None, length, OnOk, true};
ghost use Rattle.mic2_datapath.specs.Common.{World, FailsAsRefused, StreamsGoOn, memory_refusal, HasAccessed, IsTransfer, LetsBytesWait, sample_refusal};
ghost use Rattle.mic2_datapath.specs.Microstep.{access_refusal};

use console_port::{Bus, BusFault};
use mic_base::{Sink, Source};
use mic_datapath::{Ports, check_memory, transfer};
use mic2_fetch_unit::check_sample;
use micro_word::Mem;

/// Tests the write or the read, and then the word address that the fetch unit samples, if it samples one.
fn check(bus: &Bus, mem: Mem, mar: u32, at: Option<u32>) -> Result<(), BusFault>
    ensures ok { OnOk result (access_refusal (length bus.now.words) mem mar at ≡ None) }
    ensures memory { OnOk result (memory_refusal (length bus.now.words) mem mar ≡ None) }
    ensures err { FailsAsRefused (access_refusal (length bus.now.words) mem mar at) result }
{
    check_memory(bus, mem, mar)?;
    check_sample(at, bus)
}

/// Whether the word that is sampled is in memory, if one is sampled.
#[tactic(auto, unfolding(console_port::specs::World::word_refusal))]
pub fn is_there(at: Option<u32>, bus: &Bus) -> bool
    ensures { result ≡ true → sample_refusal (length bus.now.words) at ≡ None }
{
    match at {
        Some(at) => bus.has(at),
        None => true,
    }
}

/// What is read where nothing is accessed.
#[inline(always)]
fn no_transfer(mem: Mem, ports: &Ports, bus: &Bus) -> Option<u32>
    requires { mem ≡ Mem.None }
    ensures clear { memory_refusal (length bus.now.words) mem ports.now.mar ≡ None }
    ensures transfer { (w : World) → w.words ≡ bus.now.words → IsTransfer (length bus.now.words) mem ports.now w result w }
{
    None
}

/// Tests the addresses, and then does the write or the read.
#[inline(always)]
pub fn access<S: Source, K: Sink>(
    mem: Mem,
    at: Option<u32>,
    ports: &Ports,
    bus: &mut Bus,
    source: &mut S,
    sink: &mut K,
) -> Result<Option<u32>, BusFault>
    ensures access { HasAccessed (access_refusal (length bus.old.words) mem ports.now.mar at) mem ports.now.mar
        (λ word w v. IsTransfer (length bus.old.words) mem ports.now w word v)
        (S.left source.old) (K.held sink.old) bus.old (S.left source.new) (K.held sink.new) bus.new result }
    ensures waits { LetsBytesWait (length bus.old.words) mem ports.now.mar
        (access_refusal (length bus.old.words) mem ports.now.mar at) bus.old.console.kept sink.old sink.new }
    ensures streams { StreamsGoOn S.left S.faults K.held K.passed K.faults bus.old source.old sink.old
        bus.new source.new sink.new result }
{
    // Most cycles access nothing.
    if mem == Mem::None {
        check_sample(at, bus)?;
        return Ok(no_transfer(mem, ports, bus));
    }
    check(bus, mem, ports.mar, at)?;
    transfer(mem, ports, bus, source, sink)
}
