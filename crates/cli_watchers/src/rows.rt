//! The rows of a profile: one for each instruction, in the table's order, and one for what is none.

ghost use Rattle.std.specs.Prelude.{◌≡◌, ◌≤◌, ◌<◌, length, slice_get, IfOk, IfSome};
ghost use Rattle.std.specs.List.{position};
ghost use Rattle.std.specs.Str.{bytes_eq};
ghost use Rattle.cli_watchers.specs.Common.{Instr, mnemonic_of};
ghost use Rattle.cli_watchers.specs.Rows.{AreRowsUpTo, IsRowAt, row_name, row_number};

use crate::names::reached_at;
use ijvm_instr::{INSTRUCTIONS, Instr, name};
use ijvm_verifier::VerifiedImage;
use std::alloc::{AllocError, Global};

/// The number of rows.
pub const ROWS: usize = 27;

/// The row of what is no reached instruction.
pub const OTHER: u8 = 26;

/// The place of the first instruction with that name, from 0.
fn place_in(table: &[Instr], text: &str) -> Option<usize>
    ensures is { result ≡ position (λ i. bytes_eq (mnemonic_of i) text.now) table.now }
    ensures inside { IfSome result (λ place. place < length table.now) }
{
    table.iter().position(|instr| name(*instr) == text)
}

/// The place of an instruction's row.
fn row_number(instr: Instr) -> u8
    ensures { result ≡ row_number instr }
{
    match place_in(&INSTRUCTIONS, name(instr)) {
        Some(place) => place as u8,
        None => OTHER,
    }
}

/// The instruction at a place of a table.
fn instr_in(table: &[Instr], row: usize) -> Option<Instr>
    ensures { result ≡ slice_get table.now row }
{
    match table.get(row) {
        Some(instr) => Some(*instr),
        None => None,
    }
}

/// The name of a row.
pub fn row_name(row: usize) -> &'static str
    ensures name { result.now ≡ row_name row }
    ensures len { length result.now ≤ 13 }
{
    match instr_in(&INSTRUCTIONS, row) {
        Some(instr) => name(instr),
        None => "?",
    }
}

/// A row has the name of its instruction.
pub fn rows_law()
    ensures { (i : Instr) → row_name (row_number i) ≡ mnemonic_of i }
{}

/// The row of the instruction that begins at an address.
fn row_at(image: &VerifiedImage, at: u32) -> u8
    ensures { IsRowAt image.now.image at result }
{
    match reached_at(image, at) {
        Some(instr) => row_number(instr),
        None => OTHER,
    }
}

/// The row of each address of an image's text.
pub fn rows_of(alloc: Global, image: &VerifiedImage) -> Result<Vec<u8>, AllocError>
    ensures { IfOk result (λ rows. AreRowsUpTo image.now.image (length image.now.image.text) rows.items) }
{
    let len = image.image().text().len() as u32;
    let mut rows = Vec::new(alloc);
    for at in 0..len {
        rows.push(row_at(image, at))?;
    }
    Ok(rows)
}
