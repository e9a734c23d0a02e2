//! Runs of letters, digits and `_`.

ghost use Rattle.std.specs.Prelude.{◌≡◌, ◌≤◌, length};
ghost use Rattle.mic_base.specs.Prelude.{is_name_byte};
ghost use Rattle.source_text.specs.Runs.{name_len};

/// Whether the byte is a letter, a digit or `_`.
pub fn is_name_byte(byte: u8) -> bool
    ensures { result ≡ is_name_byte byte }
{
    byte.is_ascii_alphanumeric() || byte == b'_'
}

/// The number of letters, digits and `_` at the front.
pub fn name_len(text: &[u8]) -> usize
    ensures value { result ≡ name_len text.now }
    ensures small { result ≤ length text.now }
{
    text.iter().take_while(|byte| is_name_byte(**byte)).count()
}
