//! The bytes of a word.

ghost use Rattle.std.specs.Prelude.{◌≡◌, ◌<◌};
ghost use Rattle.console_port.specs.World.{byte_of};

/// Byte 0, 1, 2 or 3 of a word, the most significant first.
#[inline(always)]
#[tactic(auto, using(crate::proofs::Bytes::shifted_byte))]
pub fn byte_of(word: u32, place: u32) -> u8
    requires { place < 4 }
    ensures { result ≡ byte_of word place }
{
    ((word >> (8 * (3 - place))) % 256) as u8
}
