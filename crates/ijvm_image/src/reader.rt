//! Reads an image file: its magic number, then two blocks, each with origin and size; where its bytes are wrong, the first error.

ghost use Rattle.std.specs.Prelude.{◌≡◌, ◌⊎◌, ◌+◌, ◌*◌, ◌≤◌, ◌<◌, length, IfOk, IfErr, Ok, Err, Some, None};
ghost use Rattle.ijvm_image.specs.ImageFile.{half_at, word_at, is_origin, is_size, IsFileOf, IsRefused, ReadsImage};
ghost use Rattle.ijvm_image.specs.Reading.{field, block_from, block_at, words_at, image_of, image_read, IsWithin};
ghost use Rattle.ijvm_image.specs.declared.image.ImageError.TheVariants.{OutOfMemory};

use crate::image::{Image, ImageError};
use std::alloc::{AllocError, Global};

const MAGIC: u32 = 0x1DEADFAD;

const TEXT: u32 = 0;

const POOL: u32 = 0x10000;

/// A block's origin, and where its bytes begin and end in the file.
#[derive(Clone, Copy)]
struct Block {
    origin: u32,
    from: usize,
    to: usize,
}

fn half_at(file: &[u8], place: usize) -> u16
    requires { place + 2 ≤ length file.now }
    ensures { result ≡ half_at file.now place }
{
    256 * u16::from(file[place]) + u16::from(file[place + 1])
}

fn word_at(file: &[u8], place: usize) -> u32
    requires { place + 4 ≤ length file.now }
    ensures { result ≡ word_at file.now place }
{
    0x1_0000 * u32::from(half_at(file, place)) + u32::from(half_at(file, place + 2))
}

/// The word of a field, which the file's end may cut.
fn field(file: &[u8], place: usize) -> Result<u32, ImageError>
    requires { place ≤ length file.now }
    ensures is { result ≡ field file.now place }
    ensures inside { IfOk result (λ _. place + 4 ≤ length file.now) }
{
    if file.len() - place < 4 {
        return Err(ImageError::Truncated(file.len()));
    }
    Ok(word_at(file, place))
}

/// Whether a block may have this origin after a first block.
fn is_origin(first: Option<u32>, origin: u32) -> bool
    ensures { result ≡ is_origin first origin }
{
    (origin == TEXT || origin == POOL) && first != Some(origin)
}

fn is_size(origin: u32, size: u32) -> bool
    ensures { result ≡ is_size origin size }
{
    size <= 0x1_0000 && (origin == TEXT || size % 4 == 0)
}

/// The block whose bytes begin here.
fn block_from(file: &[u8], origin: u32, from: usize, size: u32) -> Result<Block, ImageError>
    requires { from ≤ length file.now }
    ensures is { result ≡ block_from file.now origin from size }
    ensures within { IfOk result (IsWithin file.now) }
{
    if !is_size(origin, size) {
        return Err(ImageError::BadSize(size));
    }
    if (size as usize) > file.len() - from {
        return Err(ImageError::Truncated(file.len()));
    }
    Ok(Block {
        origin,
        from,
        to: from + size as usize,
    })
}

/// The block that begins here.
fn block_at(file: &[u8], place: usize, first: Option<u32>) -> Result<Block, ImageError>
    requires { place ≤ length file.now }
    ensures is { result ≡ block_at file.now place first }
    ensures within { IfOk result (IsWithin file.now) }
{
    let origin = field(file, place)?;
    if !is_origin(first, origin) {
        return Err(ImageError::BadOrigin(origin));
    }
    let size = field(file, place + 4)?;
    block_from(file, origin, place + 8, size)
}

/// This many words from a place on.
fn words_at(alloc: Global, file: &[u8], place: usize, count: usize) -> Result<Vec<u32>, AllocError>
    requires { place + 4 * count ≤ length file.now }
    ensures { IfOk result (λ words. words.items ≡ words_at file.now place count) }
{
    let mut words = Vec::with_capacity(alloc, count)?;
    for i in 0..count {
        words.push(word_at(file, place + 4 * i))?;
    }
    Ok(words)
}

/// The image of its two blocks.
fn image_of(alloc: Global, file: &[u8], text: Block, pool: Block) -> Result<Image, AllocError>
    requires text { IsWithin file.now text }
    requires pool { IsWithin file.now pool }
    ensures { IfOk result (λ image. image ≡ image_of file.now text pool) }
{
    let words = words_at(alloc, file, pool.from, (pool.to - pool.from) / 4)?;
    let bytes = Vec::from_slice(alloc, &file[text.from..text.to])?;
    Ok(Image::new(bytes, words))
}

/// The image of a file, read from the front.
fn read_file(alloc: Global, bytes: &[u8]) -> Result<Image, ImageError>
    ensures ok { IfOk result (λ image. image_read bytes.now ≡ Ok image) }
    ensures err { IfErr result (λ e. (e ≡ OutOfMemory) ⊎ (image_read bytes.now ≡ Err e)) }
{
    if field(bytes, 0)? != MAGIC {
        return Err(ImageError::BadMagic);
    }
    let first = block_at(bytes, 4, None)?;
    let second = block_at(bytes, first.to, Some(first.origin))?;
    if second.to < bytes.len() {
        return Err(ImageError::Trailing(second.to));
    }
    if first.origin == TEXT {
        Ok(image_of(alloc, bytes, first, second)?)
    } else {
        Ok(image_of(alloc, bytes, second, first)?)
    }
}

/// Reads an image file, whose blocks stand in either order.
pub fn read_image(alloc: Global, bytes: &[u8]) -> Result<Image, ImageError>
    ensures ok { IfOk result (λ image. IsFileOf bytes.now image) }
    ensures reads { ReadsImage bytes.now result }
    ensures err { IfErr result (λ e. (e ≡ OutOfMemory) ⊎ IsRefused bytes.now e) }
{
    read_file(alloc, bytes)
}
