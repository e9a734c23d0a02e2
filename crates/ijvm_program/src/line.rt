//! Constants, labels and code lines.

use ijvm_instr::Instr;
use mic_base::Name;

/// A named constant.
#[derive(Clone, Copy, Debug, PartialEq, Eq)]
pub struct Constant {
    pub name: Name,
    pub value: u32,
}

/// A label of a unit, and the position of its code line in the unit.
#[derive(Clone, Copy, Debug, PartialEq, Eq)]
pub struct Label {
    pub name: Name,
    pub at: u32,
}

/// The instructions that name a label.
#[derive(Clone, Copy, Debug, PartialEq, Eq)]
pub enum Jump {
    Ifeq,
    Iflt,
    IfIcmpeq,
    Goto,
}

#[derive(Clone, Copy, Debug, PartialEq, Eq)]
pub enum Operation {
    /// An instruction as it stands.
    Plain(Instr),
    /// LDC_W of the constant at this position.
    Constant(u32),
    /// INVOKEVIRTUAL of the method at this position.
    Call(u32),
    /// A jump to the code line at this position of its unit.
    To { jump: Jump, target: u32 },
}

#[derive(Clone, Copy, Debug, PartialEq, Eq)]
pub struct CodeLine {
    /// The line of the source, from 1.
    pub line: u32,
    pub operation: Operation,
}
