//! Writes an image as a file, which the reader reads back as the same image.

ghost use Rattle.std.specs.Prelude.{◌≡◌, ◌+◌, ◌≤◌, ◌<◌, ◌++◌, length, OnOk, IfOk, ◌*◌};
ghost use Rattle.std.specs.List.{flat_map};
ghost use Rattle.ijvm_image.specs.ImageFile.{word_bytes, block_of, file_of};

use crate::image::Image;
use ijvm_instr::two_bytes;
use std::alloc::{AllocError, Global};

fn push_word(file: &mut Vec<u8>, word: u32) -> Result<(), AllocError>
    ensures { OnOk result (file.new.items ≡ file.old.items ++ word_bytes word) }
{
    file.extend_from_slice(&two_bytes((word / 0x1_0000) as u16))?;
    file.extend_from_slice(&two_bytes((word % 0x1_0000) as u16))?;
    Ok(())
}

/// Appends a block's origin and size.
fn push_head(file: &mut Vec<u8>, origin: u32, size: u32) -> Result<(), AllocError>
    ensures { OnOk result (file.new.items ≡ file.old.items ++ (word_bytes origin ++ word_bytes size)) }
{
    push_word(file, origin)?;
    push_word(file, size)?;
    Ok(())
}

fn push_words(file: &mut Vec<u8>, words: &[u32]) -> Result<(), AllocError>
    ensures { OnOk result (file.new.items ≡ file.old.items ++ flat_map word_bytes words.now) }
{
    for word in words {
        push_word(file, *word)?;
    }
    Ok(())
}

fn push_pool(file: &mut Vec<u8>, pool: &[u32]) -> Result<(), AllocError>
    requires { length pool.now ≤ 16384 }
    ensures { OnOk result (file.new.items ≡ file.old.items ++ block_of 0x10000 (flat_map word_bytes pool.now)) }
{
    push_head(file, 0x1_0000, 4 * pool.len() as u32)?;
    push_words(file, pool)?;
    Ok(())
}

fn push_text(file: &mut Vec<u8>, text: &[u8]) -> Result<(), AllocError>
    requires { length text.now ≤ 65536 }
    ensures { OnOk result (file.new.items ≡ file.old.items ++ block_of 0 text.now) }
{
    push_head(file, 0, text.len() as u32)?;
    file.extend_from_slice(text)?;
    Ok(())
}

/// The file of an image, the pool first.
pub fn write_image(alloc: Global, image: &Image) -> Result<Vec<u8>, AllocError>
    ensures file { IfOk result (λ file. file.items ≡ file_of image.now) }
{
    let mut file = Vec::new(alloc);
    push_word(&mut file, 0x1DEA_DFAD)?;
    push_pool(&mut file, image.pool())?;
    push_text(&mut file, image.text())?;
    Ok(file)
}
