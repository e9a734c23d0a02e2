//! What is under way at a boundary.
ghost use Rattle.std.specs.Prelude.{◌≡◌};
ghost use Rattle.mic1_checks.specs.Start.{shaped_symbols};

use mic1_cycles::{Byte, Symbols};

/// What a machine has under way at a boundary.
#[derive(Clone, Copy, Debug, PartialEq, Eq)]
pub struct Shape {
    /// Whether a byte, the opcode, is on the way to MBR.
    pub byte: bool,
    /// Whether some word is on the way to MDR.
    pub word: bool,
}

pub const SETTLED: Shape = Shape {
    byte: false,
    word: false,
};

pub const WITH_WORD: Shape = Shape {
    byte: false,
    word: true,
};

pub const WITH_BYTE: Shape = Shape {
    byte: true,
    word: false,
};

pub const WITH_BOTH: Shape = Shape {
    byte: true,
    word: true,
};

/// The symbols of a boundary with nothing under way, changed to this shape.
pub fn shaped(s: &Symbols, shape: Shape) -> Symbols
    ensures { result ≡ shaped_symbols shape s.now }
{
    let any = Byte {
        plain: 8,
        signed: 9,
    };
    Symbols {
        mbr: if shape.byte { any } else { s.mbr },
        word: if shape.word { Some(10) } else { None },
        byte: if shape.byte { Some(s.mbr) } else { None },
        ..*s
    }
}
