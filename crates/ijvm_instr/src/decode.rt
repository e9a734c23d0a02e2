//! From bytes to instructions, row by row of the table.

ghost use Rattle.std.specs.Prelude.{◌≡◌, ◌+◌, ◌*◌, ◌≤◌, ◌<◌, length, take, slice_index, IfSome};
ghost use Rattle.std.specs.Option.{option_map};
ghost use Rattle.ijvm_instr.specs.Instructions.{of_bytes, instr_at, ReadsFront, row_of, size_of, SpellsInstr};

use crate::instr::Instr;

/// The byte there, or 0 past the end.
fn byte_at(text: &[u8], at: usize) -> u8
    ensures { result ≡ slice_index text.now at }
{
    if at < text.len() { text[at] } else { 0 }
}

/// A number of two bytes, the high one first.
fn half(high: u8, low: u8) -> u16
    ensures { result ≡ 256 * high + low }
{
    256 * u16::from(high) + u16::from(low)
}

/// The instruction that begins with these bytes.
#[tactic(auto, unfolding(crate::specs::Instructions::of_bytes))]
fn read_instr(a: u8, b: u8, c: u8, d: u8, e: u8, f: u8) -> Option<Instr>
    ensures { result ≡ of_bytes a b c d e f }
{
    match a {
        0x00 => Some(Instr::Nop),
        0x10 => Some(Instr::Bipush(b.cast_signed())),
        0x13 => Some(Instr::LdcW(half(b, c))),
        0x15 => Some(Instr::Iload(b)),
        0x36 => Some(Instr::Istore(b)),
        0x57 => Some(Instr::Pop),
        0x59 => Some(Instr::Dup),
        0x5F => Some(Instr::Swap),
        0x60 => Some(Instr::Iadd),
        0x64 => Some(Instr::Isub),
        0x7E => Some(Instr::Iand),
        0x80 => Some(Instr::Ior),
        0x84 => Some(Instr::Iinc(b, c.cast_signed())),
        0x99 => Some(Instr::Ifeq(half(b, c).cast_signed())),
        0x9B => Some(Instr::Iflt(half(b, c).cast_signed())),
        0x9F => Some(Instr::IfIcmpeq(half(b, c).cast_signed())),
        0xA7 => Some(Instr::Goto(half(b, c).cast_signed())),
        0xAC => Some(Instr::Ireturn),
        0xB0 => Some(Instr::Ior),
        0xB6 => Some(Instr::Invokevirtual(half(b, c))),
        0xC4 => match b {
            0x15 => Some(Instr::WideIload(half(c, d))),
            0x36 => Some(Instr::WideIstore(half(c, d))),
            0x84 => Some(Instr::WideIinc(half(c, d), half(e, f).cast_signed())),
            _ => None,
        },
        0xFC => Some(Instr::In),
        0xFD => Some(Instr::Out),
        0xFE => Some(Instr::Err),
        0xFF => Some(Instr::Halt),
        _ => None,
    }
}

/// The whole instruction at this byte address of a text.
#[tactic(auto, unfolding(crate::specs::Instructions::instr_at))]
pub fn decode_at(text: &[u8], at: u32) -> Option<Instr>
    ensures is { result ≡ instr_at text.now at }
    ensures inside { IfSome result (λ i. at < length text.now) }
{
    let at = at as usize;
    let instr = read_instr(
        byte_at(text, at),
        byte_at(text, at + 1),
        byte_at(text, at + 2),
        byte_at(text, at + 3),
        byte_at(text, at + 4),
        byte_at(text, at + 5),
    )?;
    if at + instr.row().size() as usize <= text.len() {
        Some(instr)
    } else {
        None
    }
}

/// The instruction at the front, and its length in bytes.
pub fn decode_instr(bytes: &[u8]) -> Option<(Instr, u8)>
    ensures at_front { result ≡ option_map (λ i. (i, size_of (row_of i))) (instr_at bytes.now 0) }
    ensures spelled { IfSome result (λ r. SpellsInstr (take r.1 bytes.now) r.0 × (r.1 ≤ length bytes.now)) }

    // So it is none exactly where no whole instruction stands in front.
    ensures decodes { ReadsFront bytes.now result }
{
    let instr = decode_at(bytes, 0)?;
    Some((instr, instr.row().size() as u8))
}
