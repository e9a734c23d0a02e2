//! What is known at a boundary of an accepted image's run.
ghost use Rattle.std.specs.Prelude.{◌≡◌, ℕ, true, IfOk};
ghost use Rattle.std.specs.List.{All};
ghost use Rattle.mic1_checks.specs.Common.{plus, byte_in, Instr, Environment, Grows, Holds, StandsAt};
ghost use Rattle.mic1_checks.specs.Situation.{HasBytes, HasOperand, IsKnown, StartsBefore, is_wide_istore, takes_operand};

use crate::instruction::{ISTORE, Instruction, WIDE};
use crate::registers::ranges_of_registers;
use mic1_cycles::{Known, KnownByte, KnownWord, Symbols};
use micro_terms::{Kind, Nodes};
use std::alloc::{AllocError, Global};

/// The number of the sum of a word and this one.
pub fn offset_by(number: u32, by: u32, nodes: &mut Nodes, alloc: Global) -> Result<u32, AllocError>
    ensures value { IfOk result (λ i. Holds nodes.new (λ e. e.word i ≡ plus (e.word number) by)) }
    ensures grows { Grows nodes.old nodes.new }
{
    let mut term = nodes.term_of(number, alloc)?;
    term.add_word(by);
    let next = nodes.of_term(term)?;
    Ok(next)
}

/// The bytes of the instruction that are known.
fn bytes_of(
    n: Instruction,
    s: &Symbols,
    nodes: &mut Nodes,
    alloc: Global,
) -> Result<Vec<KnownByte>, AllocError>
    ensures value { IfOk result (λ bytes. Holds nodes.new (λ e. HasBytes e n s.now → All (λ b. byte_in e.start.words (e.word b.at) ≡ b.byte) bytes.items)) }
    ensures grows { Grows nodes.old nodes.new }
{
    let next = offset_by(s.pc, 1, nodes, alloc)?;
    let mut bytes = Vec::new(alloc);
    bytes.push(KnownByte {
        at: s.pc,
        byte: n.opcode,
    })?;
    if let Some(byte) = n.second {
        bytes.push(KnownByte { at: next, byte })?;
    }
    Ok(bytes)
}

/// Whether the byte after WIDE is that of ISTORE.
pub fn is_wide_store(second: Option<u8>) -> bool
    ensures { result ≡ is_wide_istore second }
{
    match second {
        Some(byte) => byte == ISTORE,
        None => false,
    }
}

/// Whether each instruction with this opcode, and after WIDE with this byte, takes an operand or copies one. A call takes one
/// too, but how many is its method's.
fn has_operand(opcode: u8, second: Option<u8>) -> bool
    ensures { result ≡ takes_operand opcode second }
{
    matches!(
        opcode,
        0x36 | 0x57
            | 0x59
            | 0x5F
            | 0x60
            | 0x64
            | 0x7E
            | 0x80
            | 0x99
            | 0x9B
            | 0x9F
            | 0xAC
            | 0xB0
            | 0xFD
    ) || opcode == WIDE && is_wide_store(second)
}

/// The words of memory that are known: where the instruction has an operand, the last one is in TOS and at SP, and memory has
/// the word below it.
fn words_of(
    n: Instruction,
    s: &Symbols,
    nodes: &mut Nodes,
    alloc: Global,
) -> Result<Vec<KnownWord>, AllocError>
    ensures value { IfOk result (λ words. Holds nodes.new (λ e. (takes_operand n.opcode n.second ≡ true → HasOperand e s.now) →
        All (λ w. StandsAt e w.at w.number) words.items)) }
    ensures grows { Grows nodes.old nodes.new }
{
    let mut words = Vec::new(alloc);
    if has_operand(n.opcode, n.second) {
        let below = offset_by(s.sp, u32::MAX, nodes, alloc)?;
        let number = nodes.of_kind(Kind::Word { at: below })?;
        words.push(KnownWord { at: below, number })?;
        words.push(KnownWord {
            at: s.sp,
            number: s.tos,
        })?;
    }
    Ok(words)
}

/// What is known where an instruction of this kind comes next.
pub fn known_of(
    n: Instruction,
    s: &Symbols,
    nodes: &mut Nodes,
    alloc: Global,
) -> Result<Known, AllocError>
    ensures value { IfOk result (λ known. Holds nodes.new (λ e. (i : Instr) → StartsBefore e n s.now i → IsKnown e known)) }
    ensures grows { Grows nodes.old nodes.new }
{
    let bytes = bytes_of(n, s, nodes, alloc)?;
    let words = words_of(n, s, nodes, alloc)?;
    let ranges = ranges_of_registers(alloc)?;
    Ok(Known {
        ranges,
        bytes,
        words,
    })
}
