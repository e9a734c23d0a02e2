//! An answer in the form that cases have.

use crate::case::Answer;
use crate::hex;
use std::alloc::{AllocError, Global};

/// The parts of a case that say what came of its call.
pub fn shown(alloc: Global, answer: &Answer) -> Result<String, AllocError> {
    let mut text = String::new(alloc);
    show_stream(&mut text, "out\n", &answer.out)?;
    show_stream(&mut text, "err\n", &answer.err)?;
    if answer.status != 0 {
        let status = answer.status;
        text.push_str(&format!(in alloc; "status {status}\n")?)?;
    }
    show_stream(&mut text, "left\n", &answer.left)?;
    for file in &answer.written {
        show_line(&mut text, "written", &file.name)?;
        show_bytes(&mut text, &file.bytes)?;
    }
    Ok(text)
}

/// A part with contents; nothing where it is empty.
fn show_stream(text: &mut String, head: &str, bytes: &[u8]) -> Result<(), AllocError> {
    if bytes.is_empty() {
        return Ok(());
    }
    text.push_str(head)?;
    show_bytes(text, bytes)
}

/// The lines of contents: of text where the bytes are one, else of sixteen bytes each.
fn show_bytes(text: &mut String, bytes: &[u8]) -> Result<(), AllocError> {
    match str::from_utf8(bytes) {
        Ok(lines) if bytes.iter().all(|byte| is_plain(*byte)) => show_text(text, lines),
        _ => show_hex(text, bytes),
    }
}

/// Whether a byte stands in a line of text as it is.
fn is_plain(byte: u8) -> bool {
    byte == b'\n' || (byte >= b' ' && byte <= b'~')
}

fn show_text(text: &mut String, lines: &str) -> Result<(), AllocError> {
    let mut before: Option<&str> = None;
    for line in lines.split('\n') {
        if let Some(ended) = before {
            show_line(text, "|", ended)?;
        }
        before = Some(line);
    }
    match before {
        Some(rest) if !rest.is_empty() => show_line(text, ":", rest),
        _ => Ok(()),
    }
}

/// A word, and what stands after it, if anything.
fn show_line(text: &mut String, word: &str, rest: &str) -> Result<(), AllocError> {
    text.push_str(word)?;
    if !rest.is_empty() {
        text.push_str(" ")?;
    }
    text.push_str(rest)?;
    text.push_str("\n")
}

fn show_hex(text: &mut String, bytes: &[u8]) -> Result<(), AllocError> {
    for row in bytes.chunks(16) {
        text.push_str("=")?;
        for byte in row {
            text.push_str(" ")?;
            hex::push_byte(text, *byte)?;
        }
        text.push_str("\n")?;
    }
    Ok(())
}
