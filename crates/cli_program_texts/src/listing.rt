//! The listing of an accepted program.

ghost use Rattle.std.specs.Prelude.{◌≡◌, ◌<◌, ◌+◌, ◌*◌, ◌++◌, Some, OnOk, IfOk, slice_index};
ghost use Rattle.ijvm_image.specs.Prelude.{params, others};
ghost use Rattle.ijvm_instr.specs.Prelude.{instr_at};
ghost use Rattle.verifier_facts.specs.Prelude.{IsKind};
ghost use Rattle.cli_program_texts.specs.Listing.{AddsLineAt, AddsLines, Lists, byte_line, constant_line, header_line, instr_line, pool_text};

use ijvm_instr::{Instr, decode_at, print_instr};
use ijvm_verifier::{Kind, VerifiedImage};
use mic_base::Line;
use std::alloc::{AllocError, Global};

fn constant_line(index: usize, value: u32) -> Line
    ensures { result ≡ constant_line index value }
{
    let mut line = Line::numbered("pool ", index as u64);
    line.text(" ");
    line.hex(u64::from(value), 8);
    line.text("\n");
    line
}

fn push_pool(listing: &mut Vec<u8>, pool: &[u32]) -> Result<(), AllocError>
    ensures { OnOk result (listing.new.items ≡ listing.old.items ++ pool_text 0 pool.now) }
{
    for (index, value) in pool.iter().enumerate() {
        listing.extend_from_slice(constant_line(index, *value).bytes())?;
    }
    Ok(())
}

/// Appends the line of an instruction at this address.
fn push_instr(listing: &mut Vec<u8>, instr: Instr, at: u32) -> Result<(), AllocError>
    ensures { OnOk result (listing.new.items ≡ listing.old.items ++ instr_line instr at) }
{
    let mut line = Line::addressed("", at);
    line.text(" ");
    print_instr(instr, at, &mut line);
    listing.extend_from_slice(line.bytes())?;
    listing.push(b'\n')?;
    Ok(())
}

/// The byte there, or 0 past the end.
fn byte_at(text: &[u8], at: usize) -> u8
    ensures { result ≡ slice_index text.now at }
{
    if at < text.len() { text[at] } else { 0 }
}

/// The number of the two bytes there.
fn half_at(text: &[u8], at: usize) -> u64
    requires { at < 65540 }
    ensures { result ≡ 256 * slice_index text.now at + slice_index text.now (at + 1) }
{
    256 * u64::from(byte_at(text, at)) + u64::from(byte_at(text, at + 1))
}

#[tactic(auto, unfolding(ijvm_image::specs::Image::params, ijvm_image::specs::Image::others))]
fn header_line(text: &[u8], at: u32) -> Line
    requires { at < 65536 }
    ensures { result ≡ header_line text.now at }
{
    let mut line = Line::addressed("", at);
    line.number(" method ", half_at(text, at as usize));
    line.number(" ", half_at(text, at as usize + 2));
    line.text("\n");
    line
}

fn byte_line(text: &[u8], at: u32) -> Line
    ensures { result ≡ byte_line text.now at }
{
    let mut line = Line::addressed("", at);
    line.text(" byte ");
    line.hex(u64::from(byte_at(text, at as usize)), 2);
    line.text("\n");
    line
}

/// The reached instruction that begins here.
fn start_instr(program: &VerifiedImage, at: u32) -> Instr
    requires { IsKind program.now.image at Kind.Start }
    ensures { instr_at program.now.image.text at ≡ Some result }
{
    match decode_at(program.image().text(), at) {
        Some(instr) => instr,
        None => unreachable!(),
    }
}

/// Appends what is printed of an address.
fn push_address(listing: &mut Vec<u8>, program: &VerifiedImage, at: u32) -> Result<(), AllocError>
    requires { at < 65536 }
    ensures { OnOk result (AddsLineAt program.now.image at listing.old.items listing.new.items) }
{
    let text = program.image().text();
    match program.kind_at(at) {
        Kind::Start => push_instr(listing, start_instr(program, at), at),
        Kind::Header => listing.extend_from_slice(header_line(text, at).bytes()),
        Kind::Inside => Ok(()),
        Kind::Unreached => listing.extend_from_slice(byte_line(text, at).bytes()),
    }
}

/// Appends what is printed of each address.
fn push_text(listing: &mut Vec<u8>, program: &VerifiedImage) -> Result<(), AllocError>
    ensures { OnOk result (AddsLines program.now.image listing.old.items listing.new.items) }
{
    let len = program.image().text().len() as u32;
    for at in 0..len {
        push_address(listing, program, at)?;
    }
    Ok(())
}

/// The program's constants, and what stands at each address of its text.
pub fn listing_of(alloc: Global, program: &VerifiedImage) -> Result<Vec<u8>, AllocError>
    ensures { IfOk result (λ listing. Lists program.now listing.items) }
{
    let mut listing = Vec::new(alloc);
    push_pool(&mut listing, program.image().pool())?;
    push_text(&mut listing, program)?;
    Ok(listing)
}
