//! Reading the parts of an image.

ghost use Rattle.std.specs.Prelude.{◌≡◌, ◌+◌, ◌*◌, ◌≤◌, ◌<◌, ◌^◌, length, slice_get, slice_index, IfSome};
ghost use Rattle.ijvm_instr.specs.Prelude.{row_of, instr_at};
ghost use Rattle.ijvm_image.specs.Prelude.{params, others};
ghost use Rattle.verifier_facts.specs.Prelude.{IsWhole};

use ijvm_image::Image;
use ijvm_instr::{Instr, decode_at};
use verifier_facts::instructions_are_whole;

/// How many bytes the text has.
pub fn text_len(image: &Image) -> u32
    ensures is { result ≡ length image.now.text }
    ensures fits { result ≤ 65536 }
{
    image.text().len() as u32
}

/// The whole instruction at the address.
pub fn decode(image: &Image, at: u32) -> Option<Instr>
    ensures is { result ≡ instr_at image.now.text at }
    ensures whole { IfSome result (λ i. IsWhole image.now.text at (row_of i)) }
{
    instructions_are_whole();
    decode_at(image.text(), at)
}

/// The constant with this index.
pub fn constant_at(image: &Image, index: u16) -> Option<u32>
    ensures { result ≡ slice_get image.now.pool index }
{
    image.pool().get(usize::from(index)).copied()
}

/// The byte there, or 0 past the end.
fn byte_at(image: &Image, at: usize) -> u8
    ensures { result ≡ slice_index image.now.text at }
{
    let text = image.text();
    if at < text.len() { text[at] } else { 0 }
}

/// A number of two bytes, the high one first.
fn half_at(image: &Image, at: usize) -> u32
    requires { at < 2 ^ 33 }
    ensures is { result ≡ 256 * slice_index image.now.text at + slice_index image.now.text (at + 1) }
    ensures small { result < 2 ^ 16 }
{
    256 * u32::from(byte_at(image, at)) + u32::from(byte_at(image, at + 1))
}

/// The parameters of the method at this entry, with the object reference.
#[tactic(auto, unfolding(ijvm_image::specs::Image::params))]
pub fn params_of(image: &Image, entry: u32) -> u32
    ensures is { result ≡ params image.now.text entry }
    ensures small { result < 2 ^ 16 }
{
    half_at(image, entry as usize)
}

/// The other locals of the method at this entry.
#[tactic(auto, unfolding(ijvm_image::specs::Image::others))]
pub fn others_of(image: &Image, entry: u32) -> u32
    ensures is { result ≡ others image.now.text entry }
    ensures small { result < 2 ^ 16 }
{
    half_at(image, entry as usize + 2)
}
