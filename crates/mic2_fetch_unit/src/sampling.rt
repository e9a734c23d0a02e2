//! The unit's own port to memory.

ghost use Rattle.std.specs.Prelude.{◌≡◌, None, OnOk, length, slice_index};
ghost use Rattle.std.specs.Option.{option_map};
ghost use Rattle.console_port.specs.Prelude.{FailsAsRefused};
ghost use Rattle.mic2_fetch_unit.specs.FetchUnit.{jump_refusal, sample_refusal};

use console_port::{Bus, BusFault};

/// Tests the word address that is sampled, if one is.
#[tactic(auto, unfolding(console_port::specs::World::word_refusal))]
pub fn check_sample(at: Option<u32>, bus: &Bus) -> Result<(), BusFault>
    ensures ok { OnOk result (sample_refusal (length bus.now.words) at ≡ None) }
    ensures err { FailsAsRefused (sample_refusal (length bus.now.words) at) result }
{
    match at {
        Some(at) if !bus.has(at) => Err(BusFault::OutOfMap(at)),
        _ => Ok(()),
    }
}

/// The word there.
#[tactic(auto, unfolding(console_port::specs::World::word_refusal))]
pub fn sampled(at: Option<u32>, bus: &Bus) -> Option<u32>
    requires { sample_refusal (length bus.now.words) at ≡ None }
    ensures { result ≡ option_map (λ at. slice_index bus.now.words at) at }
{
    match at {
        Some(at) => Some(bus.word(at)),
        None => None,
    }
}

/// Tests a jump to a byte address.
#[tactic(auto, unfolding(console_port::specs::World::word_refusal))]
pub fn check_jump(pc: u32, bus: &Bus) -> Result<(), BusFault>
    ensures ok { OnOk result (jump_refusal (length bus.now.words) pc ≡ None) }
    ensures err { FailsAsRefused (jump_refusal (length bus.now.words) pc) result }
{
    check_sample(Some(pc / 4), bus)
}
