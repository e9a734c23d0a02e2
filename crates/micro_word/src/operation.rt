//! The ALU's operations, each with its gates and the sides that it uses.
ghost use Rattle.std.specs.Prelude.{◌≡◌};
ghost use Rattle.micro_word.specs.Coding.{row, operation_of_gates, op_of};

use crate::statement::AluOp;

/// An operation's row of the table.
#[derive(Clone, Copy, Debug, PartialEq, Eq)]
pub struct OperationRow {
    /// F0 F1 ENA ENB INVA INC
    pub gates: u8,
    pub uses_a: bool,
    pub uses_b: bool,
}

const fn entry(gates: u8, uses_a: bool, uses_b: bool) -> OperationRow
    ensures { result ≡ record { gates = gates; uses_a = uses_a; uses_b = uses_b } }
{
    OperationRow {
        gates,
        uses_a,
        uses_b,
    }
}

impl AluOp {
    /// The table of operations: the gates, whether it uses side A and side B, and as a comment what it gives.
    pub fn row(self) -> OperationRow
        ensures { result ≡ row self }
    {
        match self {
            // operation   F0 F1 ENA ENB INVA INC   uses A   uses B   gives
            AluOp::A => entry(0b011000, true, false), // A
            AluOp::B => entry(0b010100, false, true), // B
            AluOp::NotA => entry(0b011010, true, false), // NOT A
            AluOp::NotB => entry(0b101100, false, true), // NOT B
            AluOp::Sum => entry(0b111100, true, true), // A+B
            AluOp::SumInc => entry(0b111101, true, true), // A+B+1
            AluOp::IncA => entry(0b111001, true, false), // A+1
            AluOp::IncB => entry(0b110101, false, true), // B+1
            AluOp::Sub => entry(0b111111, true, true), // B-A
            AluOp::DecB => entry(0b110110, false, true), // B-1
            AluOp::NegA => entry(0b111011, true, false), // -A
            AluOp::And => entry(0b001100, true, true), // A AND B
            AluOp::Or => entry(0b011100, true, true), // A OR B
            AluOp::Zero => entry(0b010000, false, false), // 0
            AluOp::One => entry(0b110001, false, false), // 1
            AluOp::MinusOne => entry(0b110010, false, false), // -1
        }
    }

    /// The operation of six bits; none where they are no row of the table.
    pub(crate) fn with_gates(gates: u8) -> Option<AluOp>
        ensures { result ≡ operation_of_gates gates }
    {
        match gates {
            0b011000 => Some(AluOp::A),
            0b010100 => Some(AluOp::B),
            0b011010 => Some(AluOp::NotA),
            0b101100 => Some(AluOp::NotB),
            0b111100 => Some(AluOp::Sum),
            0b111101 => Some(AluOp::SumInc),
            0b111001 => Some(AluOp::IncA),
            0b110101 => Some(AluOp::IncB),
            0b111111 => Some(AluOp::Sub),
            0b110110 => Some(AluOp::DecB),
            0b111011 => Some(AluOp::NegA),
            0b001100 => Some(AluOp::And),
            0b011100 => Some(AluOp::Or),
            0b010000 => Some(AluOp::Zero),
            0b110001 => Some(AluOp::One),
            0b110010 => Some(AluOp::MinusOne),
            _ => None,
        }
    }

    /// The operation of six bits that are a row of the table.
    pub(crate) fn of_gates(gates: u8) -> AluOp
        ensures { result ≡ op_of gates }
    {
        AluOp::with_gates(gates).unwrap_or(AluOp::MinusOne)
    }
}
