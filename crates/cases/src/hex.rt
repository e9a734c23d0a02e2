//! Two hexadecimal digits for each byte that a case cannot write as text.

ghost use Rattle.std.specs.Prelude.{◌<◌};

use std::alloc::{AllocError, Global};

pub fn value_of(digit: u8) -> Option<u8> {
    match digit {
        b'0'..=b'9' => Some(digit - b'0'),
        b'A'..=b'F' => Some(digit - b'A' + 10),
        b'a'..=b'f' => Some(digit - b'a' + 10),
        _ => None,
    }
}

pub fn text_of(alloc: Global, byte: u8) -> Result<String, AllocError> {
    let mut text = String::new(alloc);
    push_byte(&mut text, byte)?;
    Ok(text)
}

/// Appends both digits of a byte.
pub fn push_byte(text: &mut String, byte: u8) -> Result<(), AllocError> {
    text.push(digit_of(byte / 16))?;
    text.push(digit_of(byte % 16))
}

fn digit_of(value: u8) -> char
    requires { value < 16 }
{
    char::from(b"0123456789ABCDEF"[usize::from(value)])
}
