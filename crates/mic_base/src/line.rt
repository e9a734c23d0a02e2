//! A line of output, built without heap memory.

ghost use Rattle.std.specs.Prelude.{List, ℕ, ◌≡◌, ◌+◌, ◌^◌, ◌<◌, ◌≤◌, ◌++◌, ◌∷◌, [], length};
ghost use Rattle.std.specs.Char.{digit_char};
ghost use Rattle.std.specs.Fmt.{decimal, signed_decimal};
ghost use Rattle.mic_base.specs.Digits.{hex_text};

use arrayvec::ArrayString;
use itoa::Buffer;
use std::marker::Model;

/// A text of at most 512 bytes.
#[derive(Drop)]
pub struct Line {
    held: ArrayString<512>,
}

impl Model for Line {
    ghost use Rattle.std.specs.Prelude.{List, ℕ, ◌≤◌, length};

    ghost Value = { List ℕ };

    ghost view = { λ line. line.held.bytes };

    ghost invariant = { λ line. length line.held.bytes ≤ 512 };
}

impl Line {
    pub fn new() -> Line
        ensures { result ≡ [] }
    {
        Line {
            held: ArrayString::new(),
        }
    }

    /// A line of this text alone.
    pub fn of(text: &str) -> Line
        requires { length text.now ≤ 512 }
        ensures text { result ≡ text.now }
        ensures len { length result ≡ length text.now }
    {
        let mut line = Line::new();
        line.text(text);
        line
    }

    /// A line of a text and a number.
    pub fn numbered(before: &str, value: u64) -> Line
        requires { length before.now ≤ 400 }
        ensures text { result ≡ before.now ++ decimal value }
        ensures len { length result ≤ length before.now + 20 }
    {
        let mut line = Line::new();
        line.number(before, value);
        line
    }

    /// A line of a text and an address.
    pub fn addressed(before: &str, at: u32) -> Line
        requires { length before.now ≤ 400 }
        ensures text { result ≡ before.now ++ hex_text 8 at }
        ensures len { length result ≡ length before.now + 8 }
    {
        let mut line = Line::new();
        line.word(before, at);
        line
    }

    /// Appends a text.
    pub fn text(&mut self, part: &str)
        requires { length self.old + length part.now ≤ 512 }
        ensures text { self.new ≡ self.old ++ part.now }
        ensures len { length self.new ≡ length self.old + length part.now }
    {
        self.held.push_str(part);
    }

    /// Appends a value as exactly this many hexadecimal digits.
    pub fn hex(&mut self, value: u64, digits: u8)
        requires some { 1 ≤ digits }
        requires few { digits ≤ 16 }
        requires value { value < 16 ^ digits }
        requires room { length self.old + digits ≤ 512 }
        ensures text { self.new ≡ self.old ++ hex_text digits value }
        ensures len { length self.new ≡ length self.old + digits }
    {
        if digits > 1 {
            self.hex(value / 16, digits - 1);
        }
        self.digit(value % 16);
    }

    fn digit(&mut self, digit: u64)
        requires small { digit < 16 }
        requires room { length self.old < 512 }
        ensures { self.new ≡ self.old ++ digit_char digit ∷ [] }
    {
        self.held.push(hex_digit(digit));
    }

    /// Appends a text and a word.
    pub fn word(&mut self, before: &str, value: u32)
        requires { length self.old + length before.now + 8 ≤ 512 }
        ensures text { self.new ≡ self.old ++ before.now ++ hex_text 8 value }
        ensures len { length self.new ≡ length self.old + length before.now + 8 }
    {
        self.text(before);
        self.hex(u64::from(value), 8);
    }

    /// Appends a text and a number in decimal digits.
    #[tactic(auto, using(crate::specs::Decimals::decimal_lengths))]
    pub fn number(&mut self, before: &str, value: u64)
        requires { length self.old + length before.now + 20 ≤ 512 }
        ensures text { self.new ≡ self.old ++ before.now ++ decimal value }
        ensures len { length self.new ≤ length self.old + length before.now + 20 }
    {
        self.text(before);
        let mut buffer = Buffer::new();
        self.text(buffer.format(value));
    }

    /// Appends a number in decimal digits, after a `-` where it is below zero.
    #[tactic(auto, using(crate::specs::Decimals::decimal_lengths))]
    pub fn signed(&mut self, value: i64)
        requires { length self.old + length (signed_decimal value) ≤ 512 }
        ensures text { self.new ≡ self.old ++ signed_decimal value }
        ensures len { length self.new ≡ length self.old + length (signed_decimal value) }
        ensures short { length (signed_decimal value) ≤ 20 }
    {
        let mut buffer = Buffer::new();
        self.text(buffer.format(value));
    }

    /// What was appended, in order, as a text.
    pub fn as_str(&self) -> &str
        ensures value { result.now ≡ self.now }
        ensures fits { length result.now ≤ 512 }
    {
        self.held.as_str()
    }

    /// What was appended, in order.
    pub fn bytes(&self) -> &[u8]
        ensures value { result.now ≡ self.now }
        ensures fits { length result.now ≤ 512 }
    {
        self.held.as_str().as_bytes()
    }
}

fn hex_digit(digit: u64) -> char
    requires { digit < 16 }
    ensures code { result ≡ digit_char digit }
    ensures ascii { result < 128 }
{
    char::from_digit(digit as u32, 16).unwrap()
}
