//! What an expression is coded as.
ghost use Rattle.std.specs.Prelude.{◌≡◌};

use micro_word::{AluOp, BusSource, Mem, Part, Shift};

/// What the ALU and the shifter do, on which sources.
#[derive(Clone, Copy)]
pub struct Operation {
    pub op: AluOp,
    pub a: Option<BusSource>,
    pub b: Option<BusSource>,
    pub shift: Shift,
}

impl Operation {
    ghost use Rattle.mal_line.specs.Expressions.{part_with};

    /// A statement of this operation and these destinations, with nothing else.
    pub fn part(self, dests: u16) -> Part
        ensures { result ≡ part_with self dests }
    {
        Part {
            dests,
            op: self.op,
            a: self.a,
            b: self.b,
            shift: self.shift,
            mem: Mem::None,
            fetch: false,
        }
    }
}
