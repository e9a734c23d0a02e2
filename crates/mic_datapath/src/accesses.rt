//! The accesses of a cycle: their addresses are tested before anything is changed.

ghost use Rattle.std.specs.Prelude.{◌≡◌, None, ℕ, is_some, length, OnOk, IfOk};
ghost use Rattle.console_port.specs.Prelude.{World, FailsAsRefused, StreamsGoOn};
ghost use Rattle.mic_datapath.specs.Memory.{memory_refusal, byte_refusal, access_refusal, byte_under_way, ports_with};
ghost use Rattle.mic_datapath.specs.Access.{HasAccessed, IsAccess, IsTransfer, LetsBytesWait, is_read};

use crate::ports::Ports;
use console_port::{Bus, BusFault};
use mic_base::{Sink, Source};
use micro_word::Mem;

/// What is under way after a cycle.
#[derive(Clone, Copy, Debug, PartialEq, Eq)]
pub struct Sampled {
    pub word: Option<u32>,
    pub byte: Option<u8>,
}

/// Tests the write or the read.
pub fn check_memory(bus: &Bus, mem: Mem, at: u32) -> Result<(), BusFault>
    ensures ok { OnOk result (memory_refusal (length bus.now.words) mem at ≡ None) }
    ensures err { FailsAsRefused (memory_refusal (length bus.now.words) mem at) result }
{
    match mem {
        Mem::Write => bus.check_write(at),
        Mem::Read => bus.check_read(at),
        Mem::None => Ok(()),
    }
}

fn check_fetch(bus: &Bus, fetch: bool, at: u32) -> Result<(), BusFault>
    ensures ok { OnOk result (byte_refusal (length bus.now.words) fetch at ≡ None) }
    ensures err { FailsAsRefused (byte_refusal (length bus.now.words) fetch at) result }
{
    if fetch { bus.check_fetch(at) } else { Ok(()) }
}

fn check(bus: &Bus, mem: Mem, fetch: bool, ports: &Ports) -> Result<(), BusFault>
    ensures ok { OnOk result (access_refusal (length bus.now.words) mem fetch ports.now ≡ None) }
    ensures memory { OnOk result (memory_refusal (length bus.now.words) mem ports.now.mar ≡ None) }
    ensures fetch { OnOk result (byte_refusal (length bus.now.words) fetch ports.now.pc ≡ None) }
    ensures err { FailsAsRefused (access_refusal (length bus.now.words) mem fetch ports.now) result }
{
    check_memory(bus, mem, ports.mar)?;
    check_fetch(bus, fetch, ports.pc)
}

/// Stores MDR at MAR, or takes the word there.
pub fn transfer<S: Source, K: Sink>(
    mem: Mem,
    ports: &Ports,
    bus: &mut Bus,
    source: &mut S,
    sink: &mut K,
) -> Result<Option<u32>, BusFault>
    requires { memory_refusal (length bus.old.words) mem ports.now.mar ≡ None }
    ensures access { HasAccessed None mem ports.now.mar (λ word w v. IsTransfer (length bus.old.words) mem ports.now w word v)
        (S.left source.old) (K.held sink.old) bus.old (S.left source.new) (K.held sink.new) bus.new result }
    ensures sampled { IfOk result (λ word. is_some word ≡ is_read mem) }
    ensures waits { LetsBytesWait (length bus.old.words) mem ports.now.mar None bus.old.console.kept sink.old sink.new }
    ensures streams { StreamsGoOn S.left S.faults K.held K.passed K.faults bus.old source.old sink.old
        bus.new source.new sink.new result }
{
    match mem {
        Mem::Write => {
            bus.write_word(ports.mar, ports.mdr, sink)?;
            Ok(None)
        }
        Mem::Read => {
            let word = bus.read_word(ports.mar, source, sink)?;
            Ok(Some(word))
        }
        Mem::None => Ok(None),
    }
}

#[tactic(auto, unfolding(console_port::specs::World::fetch_refusal))]
pub(crate) fn sample(bus: &Bus, fetch: bool, ports: &Ports) -> Option<u8>
    requires { byte_refusal (length bus.now.words) fetch ports.now.pc ≡ None }
    ensures byte { (w : World) → w.words ≡ bus.now.words → result ≡ byte_under_way fetch ports.now w }
    ensures sampled { is_some result ≡ fetch }
{
    if fetch {
        Some(bus.byte(ports.pc))
    } else {
        None
    }
}

/// Tests the addresses, and then does the accesses.
pub fn access_tested<S: Source, K: Sink>(
    mem: Mem,
    fetch: bool,
    mar: u32,
    mdr: u32,
    pc: u32,
    bus: &mut Bus,
    source: &mut S,
    sink: &mut K,
) -> Result<Sampled, BusFault>
    ensures access { HasAccessed (access_refusal (length bus.old.words) mem fetch (ports_with mar mdr pc)) mem mar
        (λ x w v. IsAccess (length bus.old.words) mem fetch (ports_with mar mdr pc) w x.word x.byte v)
        (S.left source.old) (K.held sink.old) bus.old (S.left source.new) (K.held sink.new) bus.new result }
    ensures sampled { IfOk result (λ x. (is_some x.word ≡ is_read mem) × (is_some x.byte ≡ fetch)) }
    ensures waits { LetsBytesWait (length bus.old.words) mem mar
        (access_refusal (length bus.old.words) mem fetch (ports_with mar mdr pc)) bus.old.console.kept sink.old sink.new }
    ensures streams { StreamsGoOn S.left S.faults K.held K.passed K.faults bus.old source.old sink.old
        bus.new source.new sink.new result }
{
    let ports = Ports { mar, mdr, pc };
    check(bus, mem, fetch, &ports)?;
    let word = transfer(mem, &ports, bus, source, sink)?;
    let byte = sample(bus, fetch, &ports);
    Ok(Sampled { word, byte })
}
