//! The table of operations, by the gates.
ghost use Rattle.std.specs.Prelude.{◌≡◌, ◌<◌, ◌^◌, ℕ};
ghost use Rattle.micro_word.specs.declared.statement.AluOp.{AluOp};
ghost use Rattle.micro_word.specs.Prelude.{row, alu};
ghost use Rattle.mic_alu.specs.Gates.{gates, controls_of};

/// For each row of the table of operations, the gates with that row's bits give that row's arithmetic.
pub fn each_row_computes()
    ensures { (op : AluOp) (a b : ℕ) → a < 2 ^ 32 → b < 2 ^ 32 → gates (controls_of (row op).gates) a b ≡ alu op a b }
{}
