//! The accesses of a cycle: their addresses are tested before anything is changed.

ghost use Rattle.std.specs.Prelude.{◌≡◌, None, IfNone, IfSome, length};
ghost use Rattle.mic3_datapath.specs.Common.{ChangesOnly, IsTransfer, LeadsInside};
ghost use Rattle.mic2_datapath.specs.Prelude.{access_refusal};

use console_port::Bus;
use mic_datapath::{Ports, read_alone, write_alone};
use mic2_fetch_unit::check_sample;
use micro_word::Mem;

/// Does the write or the read where it reaches only memory, or writes to a console that has room, and what the fetch unit
/// samples is in memory. Returns what a read samples. At None nothing is done.
#[inline(always)]
pub fn access_inside(mem: Mem, at: Option<u32>, ports: &Ports, bus: &mut Bus) -> Option<Option<u32>>
    ensures clear { IfSome result (λ _. access_refusal (length bus.old.words) mem ports.now.mar at ≡ None) }
    ensures access { IfSome result (λ word.
        LeadsInside bus.old bus.new (λ w v. IsTransfer (length bus.old.words) mem ports.now w word v)) }
    ensures others { ChangesOnly ports.now.mar bus.old.words bus.new.words }
    ensures ended { bus.new.console.ended ≡ bus.old.console.ended }
    ensures none { IfNone result (bus.new ≡ bus.old) }
{
    if check_sample(at, bus).is_err() {
        return None;
    }
    match mem {
        Mem::None => Some(None),
        Mem::Read => {
            if !bus.has(ports.mar) {
                return None;
            }
            Some(read_alone(ports.mar, bus).word)
        }
        Mem::Write => {
            if !write_alone(ports.mar, ports.mdr, bus) {
                return None;
            }
            Some(None)
        }
    }
}
