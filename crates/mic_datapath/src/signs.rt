//! The sign of a fetched byte, on each higher bit of its word.

ghost use Rattle.std.specs.Prelude.{◌≡◌};
ghost use Rattle.mic_words.specs.Prelude.{signed_byte};

/// A byte with its sign on each higher bit.
#[tactic(auto, unfolding(mic_words::specs::Arithmetic::signed_byte))]
pub fn sign_extended(byte: u8) -> u32
    ensures { result ≡ signed_byte byte }
{
    (byte.wrapping_add(128) as u32).wrapping_sub(128)
}
