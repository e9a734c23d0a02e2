//! Why a microinstruction is not issued yet: a value that it needs is under way, or a jump is.

ghost use Rattle.std.specs.Prelude.{◌≡◌, ◌<◌};
ghost use Rattle.mic2_datapath.specs.Prelude.{is_to_instruction, jumps, spelled};
ghost use Rattle.mic3_datapath.specs.Cycle.{awaits, is_branch, is_destination, is_held_up, is_jump_coming, is_turning, is_word_coming, names_mdr, names_one_of};
ghost use Rattle.mic3_datapath.specs.Slots.{computing, retiring};

use crate::slots::{OperandSlot, ResultSlot};
use mic2_datapath::{Control, mem_for};
use micro_word::{Mem, is_named};

/// MDR as the only destination.
const MDR: u16 = 0b10;

/// The place of PC.
const PC: u8 = 2;

/// JMPC
const JMPC: u8 = 4;

#[inline(always)]
#[tactic(auto, using(crate::proofs::Bits::branch_bits))]
pub fn is_branch(control: &Control) -> bool
    ensures { result ≡ is_branch (spelled control.now).next }
{
    let jam = control.jam();
    jam == 1 || jam == 2
}

/// Whether it dispatches to an instruction.
#[inline(always)]
#[tactic(auto, using(crate::proofs::Bits::instruction_bits))]
pub fn is_to_instruction(control: &Control) -> bool
    ensures { result ≡ is_to_instruction (spelled control.now).next }
{
    control.jam() == JMPC && control.lines.addr == 0
}

/// Whether it loads PC.
#[inline(always)]
pub fn jumps(control: &Control) -> bool
    ensures { result ≡ jumps (spelled control.now).part }
{
    is_named(control.destinations(), PC)
}

#[inline(always)]
fn is_turning(operand: Option<OperandSlot>, after: Option<ResultSlot>) -> bool
    ensures { result ≡ is_turning (computing operand) (retiring after) }
{
    let before = match operand {
        Some(slot) => is_branch(&slot.control) || is_to_instruction(&slot.control),
        None => false,
    };
    let last = match after {
        Some(slot) => is_to_instruction(&slot.control),
        None => false,
    };
    before || last
}

/// Whether a word has one of these destinations on side A.
#[inline(always)]
fn is_on_a(control: &Control, destinations: u16) -> bool
    requires { destinations < 512 }
    ensures { result ≡ is_destination destinations (spelled control.now).part.a }
{
    is_named(destinations, control.lines.a)
}

/// Whether a word has one of these destinations on side B.
#[inline(always)]
fn is_on_b(control: &Control, destinations: u16) -> bool
    requires { destinations < 512 }
    ensures { result ≡ is_destination destinations (spelled control.now).part.b }
{
    is_named(destinations, control.lines.b)
}

/// Whether a word has one of these destinations on either side.
#[inline(always)]
fn names_one_of(control: &Control, destinations: u16) -> bool
    requires { destinations < 512 }
    ensures { result ≡ names_one_of destinations (spelled control.now).part }
{
    is_on_a(control, destinations) || is_on_b(control, destinations)
}

#[inline(always)]
fn awaits_operand(control: &Control, operand: Option<OperandSlot>) -> bool
    ensures { result ≡ awaits (spelled control.now).part (computing operand) }
{
    match operand {
        Some(slot) => names_one_of(control, slot.control.destinations()),
        None => false,
    }
}

#[inline(always)]
fn awaits_result(control: &Control, after: Option<ResultSlot>) -> bool
    ensures { result ≡ awaits (spelled control.now).part (retiring after) }
{
    match after {
        Some(slot) => names_one_of(control, slot.control.destinations()),
        None => false,
    }
}

#[inline(always)]
fn names_mdr(control: &Control) -> bool
    ensures { result ≡ names_mdr (spelled control.now).part }
{
    names_one_of(control, MDR)
}

#[inline(always)]
fn is_word_coming(
    word: Option<u32>,
    operand: Option<OperandSlot>,
    after: Option<ResultSlot>,
) -> bool
    ensures { result ≡ is_word_coming word (computing operand) (retiring after) }
{
    match after {
        Some(slot) => word.is_some()
            || (operand.is_some() && mem_for(slot.control.word) == Mem::Read),
        None => word.is_some() && operand.is_some(),
    }
}

#[inline(always)]
fn will_jump(operand: Option<OperandSlot>) -> bool
    ensures { result ≡ is_jump_coming (computing operand) }
{
    match operand {
        Some(slot) => jumps(&slot.control),
        None => false,
    }
}

/// Whether the word that retires loads PC.
#[inline(always)]
pub fn jumps_now(after: Option<ResultSlot>) -> bool
    ensures { result ≡ is_jump_coming (retiring after) }
{
    match after {
        Some(slot) => jumps(&slot.control),
        None => false,
    }
}

/// Whether what is in the slots holds a word up.
#[inline(always)]
pub fn is_held_up(
    control: &Control,
    word: Option<u32>,
    operand: Option<OperandSlot>,
    after: Option<ResultSlot>,
) -> bool
    ensures { result ≡ is_held_up (spelled control.now) word (computing operand) (retiring after) }
{
    is_turning(operand, after)
        || awaits_operand(control, operand)
        || awaits_result(control, after)
        || (names_mdr(control) && is_word_coming(word, operand, after))
        || (control.lines.takes > 0 && (will_jump(operand) || jumps_now(after)))
}
