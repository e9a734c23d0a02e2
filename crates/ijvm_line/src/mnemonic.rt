//! The words that begin an instruction's line, and what kind of operands follows each.

ghost use Rattle.std.specs.Prelude.{◌≡◌};
ghost use Rattle.std.specs.Str.{str_eq_ignore_ascii_case};
ghost use Rattle.ijvm_line.specs.Mnemonics.{find_kind, kind_of, spelled_in};

use ijvm_instr::{INSTRUCTIONS, Instr, name};
use ijvm_program::Jump;

/// Whether a local is loaded or stored.
#[derive(Clone, Copy, Debug, PartialEq, Eq)]
pub enum Access {
    Load,
    Store,
}

/// Which operands follow a word.
#[derive(Clone, Copy, Debug, PartialEq, Eq)]
pub enum Kind {
    /// None: it is this instruction.
    Alone(Instr),
    /// A number.
    Push,
    /// A constant's name or index.
    Constant,
    /// A local's name or index.
    Local(Access),
    /// A local's name or index, and a number.
    Increment,
    /// A label.
    Jump(Jump),
    /// A method's name.
    Call,
    /// ILOAD, ISTORE or IINC with its operands.
    Wide,
}

/// Whether the text is the word, in letters of any case.
fn is_spelled(word: &str, text: &[u8]) -> bool
    ensures { result ≡ str_eq_ignore_ascii_case word.now text.now }
{
    word.as_bytes().eq_ignore_ascii_case(text)
}

/// The first of the instructions whose mnemonic the text is.
fn spelled_in(table: &[Instr], text: &[u8]) -> Option<Instr>
    ensures { result ≡ spelled_in table.now text.now }
{
    table
        .iter()
        .copied()
        .find(|instr| is_spelled(name(*instr), text))
}

/// The kind of operands after an instruction's mnemonic. The wide forms begin with WIDE.
fn kind_of(instr: Instr) -> Option<Kind>
    ensures { result ≡ kind_of instr }
{
    match instr {
        Instr::Bipush(_) => Some(Kind::Push),
        Instr::LdcW(_) => Some(Kind::Constant),
        Instr::Iload(_) => Some(Kind::Local(Access::Load)),
        Instr::Istore(_) => Some(Kind::Local(Access::Store)),
        Instr::Iinc(_, _) => Some(Kind::Increment),
        Instr::Ifeq(_) => Some(Kind::Jump(Jump::Ifeq)),
        Instr::Iflt(_) => Some(Kind::Jump(Jump::Iflt)),
        Instr::IfIcmpeq(_) => Some(Kind::Jump(Jump::IfIcmpeq)),
        Instr::Goto(_) => Some(Kind::Jump(Jump::Goto)),
        Instr::Invokevirtual(_) => Some(Kind::Call),
        Instr::WideIload(_) | Instr::WideIstore(_) | Instr::WideIinc(_, _) => None,
        alone => Some(Kind::Alone(alone)),
    }
}

impl Kind {
    /// The kind of a word: WIDE, or a mnemonic of the table.
    pub fn find(text: &[u8]) -> Option<Kind>
        ensures { result ≡ find_kind text.now }
    {
        if is_spelled("WIDE", text) {
            return Some(Kind::Wide);
        }
        match spelled_in(&INSTRUCTIONS, text) {
            Some(instr) => kind_of(instr),
            None => None,
        }
    }
}
