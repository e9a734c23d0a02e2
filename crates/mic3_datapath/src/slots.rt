//! The two slots of the pipeline, each with the word that filled it.

ghost use Rattle.std.specs.Prelude.{◌≡◌, None};
ghost use Rattle.mic3_datapath.specs.Common.{Mic2, statement_of};

use mic2_datapath::Control;

/// A word that was issued.
#[derive(Clone, Copy, Debug, PartialEq, Eq)]
pub struct OperandSlot {
    pub control: Control,
    /// The words on its sides A and B.
    pub a: u32,
    pub b: u32,
    /// The byte that it dispatches to, if it does.
    pub byte: u8,
    ghost unused: { (statement_of Mic2 control.word).part.b ≡ None → b ≡ 0 },
}

/// A word that has computed.
#[derive(Clone, Copy, Debug, PartialEq, Eq)]
pub struct ResultSlot {
    pub control: Control,
    /// Its shifted result.
    pub value: u32,
    pub byte: u8,
}
