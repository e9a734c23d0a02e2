//! The accesses of a cycle that need no source and no sink: those that reach only memory, and a write for which the
//! console has room. None of them is refused, and no fault stops one.

ghost use Rattle.std.specs.Prelude.{◌≡◌, ◌<◌, ◌/◌, None, is_some, length, true, false};
ghost use Rattle.console_port.specs.Prelude.{ChangesOnly, most_kept, console_at};
ghost use Rattle.mic_datapath.specs.Memory.{access_refusal, memory_refusal};
ghost use Rattle.mic_datapath.specs.Access.{AccessesMemory, AreInMemory, IsAccess, LeadsInside, SamplesMemory, TransfersMemory, is_access, is_read};

use crate::accesses::{Sampled, sample};
use crate::ports::Ports;
use console_port::Bus;
use micro_word::Mem;

/// Whether the accesses reach only memory.
pub fn is_in_memory(mem: Mem, fetch: bool, mar: u32, pc: u32, bus: &Bus) -> bool
    ensures { result ≡ true → AreInMemory (length bus.now.words) mem fetch mar pc }
{
    if fetch && !bus.has(pc / 4) {
        return false;
    }
    match mem {
        Mem::None => true,
        _ => bus.has(mar),
    }
}

/// What a fetch from memory samples where nothing else is accessed.
#[inline(always)]
#[tactic(auto, unfolding(console_port::specs::World::fetch_refusal))]
pub fn fetch_alone(pc: u32, bus: &Bus) -> Sampled
    requires { pc / 4 < length bus.now.words }
    ensures clear { (p : Ports) → p.pc ≡ pc → access_refusal (length bus.now.words) Mem.None true p ≡ None }
    ensures access { (p : Ports) → p.pc ≡ pc → SamplesMemory bus.now Mem.None true p result.word result.byte }
    ensures word { result.word ≡ None }
    ensures byte { is_some result.byte ≡ true }
{
    Sampled {
        word: None,
        byte: Some(bus.byte(pc)),
    }
}

/// What a read of memory samples where nothing else is accessed.
#[inline(always)]
#[tactic(auto, unfolding(console_port::specs::World::read_refusal, console_port::specs::World::read_value, console_port::specs::World::untaken_after))]
pub fn read_alone(mar: u32, bus: &Bus) -> Sampled
    requires { mar < length bus.now.words }
    ensures clear { (p : Ports) → p.mar ≡ mar → access_refusal (length bus.now.words) Mem.Read false p ≡ None }
    ensures access { (p : Ports) → p.mar ≡ mar → SamplesMemory bus.now Mem.Read false p result.word result.byte }
    ensures word { is_some result.word ≡ true }
    ensures byte { result.byte ≡ None }
{
    Sampled {
        word: Some(bus.word(mar)),
        byte: None,
    }
}

/// Stores MDR in memory, or gives its byte to a console that has room, where nothing else is accessed. Any other write is
/// not done.
#[inline(always)]
pub fn write_alone(mar: u32, mdr: u32, bus: &mut Bus) -> bool
    ensures clear { result ≡ true → (p : Ports) → p.mar ≡ mar → access_refusal (length bus.old.words) Mem.Write false p ≡ None }
    ensures access { result ≡ true → (p : Ports) → p.mar ≡ mar → p.mdr ≡ mdr →
        LeadsInside bus.old bus.new (λ w v. IsAccess (length bus.old.words) Mem.Write false p w None None v) }
    ensures others { ChangesOnly mar bus.old.words bus.new.words }
    ensures ended { bus.new.console.ended ≡ bus.old.console.ended }
    ensures memory { mar < length bus.old.words → result ≡ true }
    ensures room { mar ≡ console_at → length bus.old.console.kept < most_kept → result ≡ true }
    ensures stays { result ≡ false → bus.new ≡ bus.old }
{
    bus.write_here(mar, mdr)
}

/// Stores MDR at MAR, or takes the word there.
#[tactic(auto, unfolding(console_port::specs::World::read_refusal, console_port::specs::World::write_refusal, console_port::specs::World::read_value, console_port::specs::World::untaken_after, console_port::specs::World::given_after))]
fn transfer_memory(mem: Mem, ports: &Ports, bus: &mut Bus) -> Option<u32>
    requires { is_access mem ≡ true → ports.now.mar < length bus.old.words }
    ensures clear { memory_refusal (length bus.old.words) mem ports.now.mar ≡ None }
    ensures transfer { TransfersMemory bus.old bus.new mem ports.now result }
    ensures sampled { is_some result ≡ is_read mem }
    ensures others { ChangesOnly ports.now.mar bus.old.words bus.new.words }
    ensures size { length bus.new.words ≡ length bus.old.words }
    ensures console { bus.new.console ≡ bus.old.console }
{
    match mem {
        Mem::Write => {
            bus.set_word(ports.mar, ports.mdr);
            None
        }
        Mem::Read => Some(bus.word(ports.mar)),
        Mem::None => None,
    }
}

/// Does the accesses of a cycle, which are all in memory.
#[inline(always)]
#[tactic(auto, unfolding(console_port::specs::World::fetch_refusal))]
pub fn access_memory(mem: Mem, fetch: bool, ports: &Ports, bus: &mut Bus) -> Sampled
    requires { AreInMemory (length bus.old.words) mem fetch ports.now.mar ports.now.pc }
    ensures clear { access_refusal (length bus.old.words) mem fetch ports.now ≡ None }
    ensures access { AccessesMemory bus.old bus.new mem fetch ports.now result.word result.byte }
    ensures word { is_some result.word ≡ is_read mem }
    ensures byte { is_some result.byte ≡ fetch }
    ensures others { ChangesOnly ports.now.mar bus.old.words bus.new.words }
    ensures console { bus.new.console ≡ bus.old.console }
{
    let word = transfer_memory(mem, ports, bus);
    let byte = sample(bus, fetch, ports);
    Sampled { word, byte }
}
