//! The image of a program's code.

ghost use Rattle.std.specs.Prelude.{◌≡◌, ◌≤◌, IfErr, IfOk, None, OnOk, false, length};
ghost use Rattle.tiny_compiler.specs.Common.{IsNamed, IsCodeOf, program_of, is_memory};
ghost use Rattle.tiny_compiler.specs.Image.{IsTooLarge, TextExceedsBy};

use ijvm_image::Image;
use ijvm_text::{Text, Units};
use std::alloc::Global;
use tiny_emit::emit;
use tiny_parser::{Function, TinyError};
use tiny_pool::{Table, make_pool};

/// The most words of a pool.
const MOST_WORDS: u32 = 16384;

/// The most bytes of a text.
const MOST_BYTES: u32 = 65536;

/// The limits of a text, in their order.
fn within_limits(text: &Text) -> Result<(), TinyError>
    ensures ok { OnOk result ((length text.now.bytes.items ≤ 65536) × (text.now.far ≡ None)) }
    ensures err { IfErr result (λ e. is_memory e ≡ false → TextExceedsBy text.now e) }
{
    let Ok(size) = text.size() else {
        return Err(TinyError::OutOfMemory);
    };
    if size > MOST_BYTES {
        return Err(TinyError::TextTooLong(size));
    }
    match text.far {
        Some(jump) => Err(TinyError::JumpTooFar(jump.line, jump.distance)),
        None => Ok(()),
    }
}

/// The image of the code of a program, or the first limit that the code exceeds.
pub(crate) fn code_image(
    alloc: Global,
    functions: &[Function],
    main: u32,
) -> Result<Image, TinyError>
    requires { IsNamed (program_of functions.now main) }
    ensures ok { IfOk result (λ image. IsCodeOf (program_of functions.now main) image) }
    ensures err { IfErr result (λ e. is_memory e ≡ false → IsTooLarge (program_of functions.now main) e) }
{
    let Ok(table) = Table::new(alloc, functions, main) else {
        return Err(TinyError::OutOfMemory);
    };
    let words = table.pool_length();
    if words > MOST_WORDS {
        return Err(TinyError::PoolTooLong(words));
    }
    let Ok(units) = emit(alloc, &table, functions, main) else {
        return Err(TinyError::OutOfMemory);
    };
    let Units { text, entries } = units;
    within_limits(&text)?;
    let Ok(pool) = make_pool(alloc, &table, &entries) else {
        return Err(TinyError::OutOfMemory);
    };
    Ok(Image::new(text.bytes, pool))
}
