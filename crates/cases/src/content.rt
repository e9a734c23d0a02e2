//! The lines that hold a part's contents: `| text` with its newline, `: text` without, `= 1D EA` bytes.
//!
//! A number after the mark says how often a line stands: `|511 x{n}`. There `{n}` is the number of its turn, from 1,
//! and `{3x}` and `{8x}` are that number in 3 and in 8 hexadecimal digits. `|4..511 x{n}` has the turns from 4 to 511.

use crate::case::Refusal;
use crate::hex;
use mic_base::Line;
use std::alloc::Global;

/// What a line of contents adds, or none where it is no line of contents.
pub fn content_of(alloc: Global, line: &str) -> Result<Option<Vec<u8>>, Refusal> {
    if let Some(rest) = line.strip_prefix('|') {
        Ok(Some(text_of(alloc, rest, "\n")?))
    } else if let Some(rest) = line.strip_prefix(':') {
        Ok(Some(text_of(alloc, rest, "")?))
    } else if let Some(rest) = line.strip_prefix('=') {
        Ok(Some(bytes_of(alloc, rest)?))
    } else {
        Ok(None)
    }
}

/// The first turn of a line that stands more than once, and the last: `8` is the turns from 1 to 8, `4..511` those from 4 to 511.
fn turns(count: &str) -> Result<Option<(u32, u32)>, Refusal> {
    if count.is_empty() {
        return Ok(None);
    }
    let (first, last) = count.split_once("..").unwrap_or(("1", count));
    match (first.parse::<u32>(), last.parse::<u32>()) {
        (Ok(first), Ok(last)) => Ok(Some((first, last))),
        _ => Err(Refusal("a mark has a space or a number after it")),
    }
}

/// The text after a mark, as often as it stands, each time with the ending.
fn text_of(alloc: Global, rest: &str, ending: &str) -> Result<Vec<u8>, Refusal> {
    let (count, text) = rest.split_once(' ').unwrap_or((rest, ""));
    let mut all = Vec::new(alloc);
    match turns(count)? {
        None => {
            all.extend_from_slice(text.as_bytes())?;
            all.extend_from_slice(ending.as_bytes())?;
        }
        Some((first, last)) => {
            for turn in first..=last {
                all.extend_from_slice(numbered(alloc, text, turn)?.as_bytes())?;
                all.extend_from_slice(ending.as_bytes())?;
            }
        }
    }
    Ok(all)
}

/// A text with the number of its turn in place of each `{n}`, `{3x}` and `{8x}`.
fn numbered(alloc: Global, text: &str, turn: u32) -> Result<String, Refusal> {
    let line = Line::addressed("", turn);
    let digits = line.as_str();
    let mut text = text.replace(alloc, "{n}", &format!(in alloc; "{turn}")?)?;
    text = text.replace(alloc, "{8x}", digits)?;
    if let Some(three) = digits.strip_prefix("00000") {
        text = text.replace(alloc, "{3x}", three)?;
    }
    if text.contains('{') {
        return Err(Refusal("braces hold n, 3x or 8x"));
    }
    Ok(text)
}

/// The bytes after a mark, as often as they stand.
fn bytes_of(alloc: Global, rest: &str) -> Result<Vec<u8>, Refusal> {
    let (count, digits) = rest.split_once(' ').unwrap_or((rest, ""));
    let piece = hex_bytes(alloc, digits)?;
    let mut all = Vec::new(alloc);
    let (first, last) = turns(count)?.unwrap_or((1, 1));
    for _ in first..=last {
        all.extend_from_slice(&piece)?;
    }
    Ok(all)
}

/// The bytes of hexadecimal digits, two for a byte.
fn hex_bytes(alloc: Global, digits: &str) -> Result<Vec<u8>, Refusal> {
    let mut bytes = Vec::new(alloc);
    let mut high: Option<u8> = None;
    for digit in digits.as_bytes() {
        if *digit == b' ' {
            continue;
        }
        let Some(value) = hex::value_of(*digit) else {
            return Err(Refusal("no hexadecimal digit"));
        };
        match high {
            None => high = Some(value),
            Some(first) => {
                bytes.extend_from_slice(&[(first << 4) | value])?;
                high = None;
            }
        }
    }
    match high {
        None => Ok(bytes),
        Some(_) => Err(Refusal("bytes have two digits each")),
    }
}
