//! Compares what came of a call with what must come of it.

use crate::case::{Answer, CaseFile};
use crate::hex;
use std::alloc::{AllocError, Global};

/// The first difference of an answer from the one that is expected, in one line.
pub fn difference(
    alloc: Global,
    is: &Answer,
    wanted: &Answer,
) -> Result<Option<String>, AllocError> {
    if let Some(difference) = bytes_difference(alloc, "err", &is.err, &wanted.err)? {
        return Ok(Some(difference));
    }
    if let Some(difference) = bytes_difference(alloc, "out", &is.out, &wanted.out)? {
        return Ok(Some(difference));
    }
    if is.status != wanted.status {
        return Ok(Some(status_difference(alloc, is.status, wanted.status)?));
    }
    if let Some(difference) = bytes_difference(alloc, "left", &is.left, &wanted.left)? {
        return Ok(Some(difference));
    }
    files_difference(alloc, &is.written, &wanted.written)
}

fn status_difference(alloc: Global, is: u8, wanted: u8) -> Result<String, AllocError> {
    format!(in alloc; "the status is {is}, and not {wanted}")
}

/// The first file that is not written as it must be, or that no one asked for.
fn files_difference(
    alloc: Global,
    are: &[CaseFile],
    wanted: &[CaseFile],
) -> Result<Option<String>, AllocError> {
    for file in wanted {
        if let Some(difference) = file_difference(alloc, find(are, &file.name), file)? {
            return Ok(Some(difference));
        }
    }
    for file in are {
        if find(wanted, &file.name).is_none() {
            return Ok(Some(not_asked_for(alloc, &file.name)?));
        }
    }
    Ok(None)
}

fn file_difference(
    alloc: Global,
    found: Option<&CaseFile>,
    wanted: &CaseFile,
) -> Result<Option<String>, AllocError> {
    let name = wanted.name.as_str();
    let Some(found) = found else {
        return Ok(Some(format!(in alloc; "{name} is not written")?));
    };
    let what = format!(in alloc; "written {name}")?;
    bytes_difference(alloc, &what, &found.bytes, &wanted.bytes)
}

fn not_asked_for(alloc: Global, name: &str) -> Result<String, AllocError> {
    format!(in alloc; "{name} is written, and the case does not say so")
}

fn find<'a>(files: &'a [CaseFile], name: &str) -> Option<&'a CaseFile> {
    files.iter().find(|file| file.name.as_str() == name)
}

/// The first line that differs, or the first byte where one of them is no text.
fn bytes_difference(
    alloc: Global,
    what: &str,
    is: &[u8],
    wanted: &[u8],
) -> Result<Option<String>, AllocError> {
    if is == wanted {
        return Ok(None);
    }
    match (str::from_utf8(is), str::from_utf8(wanted)) {
        (Ok(is), Ok(wanted)) => Ok(Some(line_difference(alloc, what, is, wanted)?)),
        _ => Ok(Some(byte_difference(alloc, what, is, wanted)?)),
    }
}

fn line_difference(
    alloc: Global,
    what: &str,
    is: &str,
    wanted: &str,
) -> Result<String, AllocError> {
    let same = is
        .split('\n')
        .zip(wanted.split('\n'))
        .take_while(|(line, want)| line == want)
        .count();
    let number = same.saturating_add(1);
    let want = wanted.split('\n').nth(same).unwrap_or("");
    match is.split('\n').nth(same) {
        Some(line) => { format!(in alloc; "{what} line {number} is {line:?}, and not {want:?}") }
        None => format!(in alloc; "{what} ends before its line {number}, which is {want:?}"),
    }
}

fn byte_difference(
    alloc: Global,
    what: &str,
    is: &[u8],
    wanted: &[u8],
) -> Result<String, AllocError> {
    let same = is
        .iter()
        .zip(wanted)
        .take_while(|(byte, want)| byte == want)
        .count();
    match (is.get(same), wanted.get(same)) {
        (Some(byte), Some(want)) => {
            let (byte, want) = (hex::text_of(alloc, *byte)?, hex::text_of(alloc, *want)?);
            format!(in alloc; "{what} byte {same} is {byte}, and not {want}")
        }
        _ => {
            let (is, wanted) = (is.len(), wanted.len());
            format!(in alloc; "{what} has {is} bytes, and not {wanted}")
        }
    }
}
