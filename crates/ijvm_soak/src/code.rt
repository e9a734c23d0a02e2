//! The bytes of a generated program, block by block.

ghost use Rattle.std.specs.Prelude.{◌≡◌, ◌+◌, ◌*◌, ◌%◌, ◌<◌, ◌++◌, OnOk};
ghost use Rattle.std.specs.List.{flat_map};
ghost use Rattle.ijvm_instr.specs.Prelude.{spelling};
ghost use Rattle.ijvm_soak.specs.Generated.{block, block_at, main_text, method_text};

use ijvm_image::push_header;
use ijvm_instr::{Instr, push_instr};
use std::alloc::AllocError;

/// The distance from a block's branch to the block's end.
const TO_END: i16 = 6;

/// Appends the bytes of these instructions.
fn push_code(text: &mut Vec<u8>, code: &[Instr]) -> Result<(), AllocError>
    ensures { OnOk result (text.new.items ≡ text.old.items ++ flat_map spelling code.now) }
{
    for instr in code {
        push_instr(text, *instr)?;
    }
    Ok(())
}

/// Appends the block of a kind, with a number.
fn push_block(text: &mut Vec<u8>, kind: u64, number: i8) -> Result<(), AllocError>
    ensures { OnOk result (text.new.items ≡ text.old.items ++ flat_map spelling (block kind number)) }
{
    match kind {
        0 => push_code(
            text,
            &[
                Instr::Bipush(number),
                Instr::Iload(0),
                Instr::Iadd,
                Instr::Istore(0),
            ],
        ),
        1 => push_code(text, &[Instr::Iinc(0, number)]),
        2 => push_code(
            text,
            &[
                Instr::Iload(0),
                Instr::Bipush(number),
                Instr::Isub,
                Instr::Istore(0),
            ],
        ),
        3 => push_code(
            text,
            &[
                Instr::LdcW(0),
                Instr::Iload(0),
                Instr::Invokevirtual(1),
                Instr::Istore(0),
            ],
        ),
        _ => push_code(
            text,
            &[Instr::Iload(0), Instr::Iflt(TO_END), Instr::Iinc(0, 1)],
        ),
    }
}

/// Appends the block at a place, counted from 0.
fn push_block_at(text: &mut Vec<u8>, seed: u32, place: u16) -> Result<(), AllocError>
    ensures { OnOk result (text.new.items ≡ text.old.items ++ flat_map spelling (block_at seed place)) }
{
    let seed = u64::from(seed);
    let place = u64::from(place);
    let number = (seed + 3 * place) % 100;
    push_block(text, (seed + place) % 5, number as i8)
}

/// Appends main's bytes.
pub(crate) fn push_main(text: &mut Vec<u8>, seed: u32, size: u16) -> Result<(), AllocError>
    ensures { OnOk result (text.new.items ≡ text.old.items ++ main_text seed size) }
{
    for place in 0..size {
        push_block_at(text, seed, place)?;
    }
    push_code(text, &[Instr::Iload(0), Instr::Halt])
}

/// Appends the method's bytes.
pub(crate) fn push_method(text: &mut Vec<u8>) -> Result<(), AllocError>
    ensures { OnOk result (text.new.items ≡ text.old.items ++ method_text) }
{
    push_header(text, 2, 0)?;
    push_code(
        text,
        &[
            Instr::Iload(1),
            Instr::Bipush(1),
            Instr::Iadd,
            Instr::Ireturn,
        ],
    )
}
