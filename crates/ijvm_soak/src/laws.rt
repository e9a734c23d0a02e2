//! What holds of every generated program.

ghost use Rattle.std.specs.Prelude.{◌≤◌, ℕ, length};
ghost use Rattle.console_port.specs.Prelude.{IsMap};
ghost use Rattle.verifier_facts.specs.Prelude.{Accepts};
ghost use Rattle.ijvm_soak.specs.Generated.{generated};

use ijvm_instr::read_instructions_are_whole;
use verifier_notes::listed_images_are_accepted;

/// It is accepted: no refusal is true of it.
pub fn generated_images_are_accepted()
    ensures { (seed size end : ℕ) → size ≤ 9000 → IsMap end → Accepts (generated seed size) end }
{
    read_instructions_are_whole();
    listed_images_are_accepted();
}

/// Its text is within the limit.
#[tactic(auto, using(crate::proofs::Lengths::text_short), unfolding(crate::specs::Generated::generated))]
pub fn generated_texts_are_short()
    ensures { (seed size : ℕ) → size ≤ 9000 → length (generated seed size).text ≤ 65536 }
{}
