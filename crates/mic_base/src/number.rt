//! Numbers in words and in sources.

ghost use Rattle.std.specs.Prelude.{◌≡◌, ◌+◌, ◌^◌, ◌<◌, ◌≤◌, ℕ, length, min, not, true};
ghost use Rattle.std.specs.Char.{digit_value, is_digit};
ghost use Rattle.std.specs.List.{list_all, position};
ghost use Rattle.mic_base.specs.Digits.{value_of};
ghost use Rattle.mic_base.specs.Number.{base_of, begins_hex, begins_minus, digits_of, digits_read, number_of, quoted, sized, unsigned_of, IsReadBack};

use thiserror::Error;

/// Why a text is no number.
#[derive(Clone, Copy, Debug, PartialEq, Eq, Error)]
pub enum NumberError {
    #[error("no digit")]
    Empty,
    /// The place is counted from the text's front.
    #[error("no digit at {0}")]
    BadDigit(usize),
    /// The magnitude is above 4,294,967,295.
    #[error("too large")]
    TooLarge,
}

/// The greatest magnitude.
const MOST: u64 = 0xFFFF_FFFF;

/// How numbers are written in words and in sources.
pub struct Number;

impl Number {
    /// Reads decimal digits, or `0x` with hexadecimal digits, each with a `-` in front or none; or a printable byte in
    /// single quotes.
    #[tactic(auto, unfolding(crate::specs::Number::number_of))]
    pub fn read(text: &[u8]) -> Result<i64, NumberError>
        ensures { result ≡ number_of text.now }
    {
        if let Some(byte) = quoted(text) {
            return Ok(i64::from(byte));
        }
        let unsigned = unsigned_of(text);
        let digits = digits_of(unsigned);
        let place = text.len() - digits.len();
        read_digits(begins_minus(text), base_of(unsigned), place, digits)
    }
}

/// A law: after `0x`, what `Line::hex` appends is read as its value.
pub fn hex_is_read_back()
    ensures { (digits value : ℕ) → 1 ≤ digits → value < 16 ^ digits → value < 2 ^ 32 → IsReadBack digits value }
{}

fn quoted(text: &[u8]) -> Option<u8>
    ensures { result ≡ quoted text.now }
{
    match text {
        [b'\'', byte, b'\''] if *byte >= b' ' && *byte <= b'~' => Some(*byte),
        _ => None,
    }
}

fn begins_minus(text: &[u8]) -> bool
    ensures { result ≡ begins_minus text.now }
{
    matches!(text, [b'-', ..])
}

fn begins_hex(text: &[u8]) -> bool
    ensures { result ≡ begins_hex text.now }
{
    matches!(text, [b'0', b'x', ..])
}

fn unsigned_of(text: &[u8]) -> &[u8]
    ensures value { result.now ≡ unsigned_of text.now }
    ensures len { length result.now ≤ length text.now }
{
    if begins_minus(text) { &text[1..] } else { text }
}

fn digits_of(unsigned: &[u8]) -> &[u8]
    ensures value { result.now ≡ digits_of unsigned.now }
    ensures len { length result.now ≤ length unsigned.now }
{
    if begins_hex(unsigned) {
        &unsigned[2..]
    } else {
        unsigned
    }
}

fn base_of(unsigned: &[u8]) -> u32
    ensures value { result ≡ base_of unsigned.now }
    ensures low { 2 ≤ result }
    ensures high { result ≤ 16 }
{
    if begins_hex(unsigned) { 16 } else { 10 }
}

fn read_digits(
    is_negative: bool,
    base: u32,
    place: usize,
    digits: &[u8],
) -> Result<i64, NumberError>
    requires low { 2 ≤ base }
    requires high { base ≤ 16 }
    requires place { place + length digits.now < 2 ^ 64 }
    ensures { result ≡ digits_read is_negative base place digits.now }
{
    if digits.is_empty() {
        return Err(NumberError::Empty);
    }
    match bad_digit(base, digits) {
        Some(at) => Err(NumberError::BadDigit(place + at)),
        None => sized(is_negative, magnitude(base, digits)),
    }
}

fn bad_digit(base: u32, digits: &[u8]) -> Option<usize>
    requires low { 2 ≤ base }
    requires high { base ≤ 16 }
    ensures { result ≡ position (λ b. not (is_digit b base)) digits.now }
{
    digits
        .iter()
        .position(|byte| !char::from(*byte).is_digit(base))
}

/// The value of digits, but at most one more than the greatest magnitude.
fn magnitude(base: u32, digits: &[u8]) -> u64
    requires low { 2 ≤ base }
    requires high { base ≤ 16 }
    requires digits { list_all (λ b. is_digit b base) digits.now ≡ true }
    ensures { result ≡ min (value_of base digits.now) 0x1_0000_0000 }
{
    let mut value = 0;
    for byte in digits {
        value = (value * u64::from(base) + digit_of(base, *byte)).min(MOST + 1);
    }
    value
}

fn digit_of(base: u32, byte: u8) -> u64
    requires low { 2 ≤ base }
    requires high { base ≤ 16 }
    requires digit { is_digit byte base ≡ true }
    ensures value { result ≡ digit_value byte }
    ensures below { result < base }
{
    u64::from(char::from(byte).to_digit(base).unwrap())
}

fn sized(is_negative: bool, magnitude: u64) -> Result<i64, NumberError>
    ensures { result ≡ sized is_negative magnitude }
{
    if magnitude > MOST {
        return Err(NumberError::TooLarge);
    }
    let value = magnitude as i64;
    Ok(if is_negative { -value } else { value })
}
