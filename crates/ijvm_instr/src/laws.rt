//! What holds of every instruction that is read, or written.

ghost use Rattle.std.specs.Prelude.{◌+◌, ◌<◌, ◌≤◌, ℕ, List, All, length};
ghost use Rattle.ijvm_instr.specs.declared.instr.Instr.{Instr};
ghost use Rattle.ijvm_instr.specs.Instructions.{IsInstr, IsReadAt, IsReadBack, row_of, size_of};

/// What is read in a text begins and ends inside it, and its operands are in the ranges of their types. What is written in a text is read where it was written.
pub fn read_instructions_are_whole()
    ensures begins { (text : List ℕ) (at : ℕ) (i : Instr) → IsReadAt text at i → at < length text }
    ensures ends { (text : List ℕ) (at : ℕ) (i : Instr) → IsReadAt text at i → at + size_of (row_of i) ≤ length text }
    ensures real { (text : List ℕ) (at : ℕ) (i : Instr) → All (λ (b : ℕ). b < 256) text → IsReadAt text at i → IsInstr i }
    ensures written { (before after : List ℕ) (i : Instr) → IsInstr i → IsReadBack i before after }
{}
