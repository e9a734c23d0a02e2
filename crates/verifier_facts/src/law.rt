//! What holds of each instruction in a text, and what acceptance means for runs.

ghost use Rattle.std.specs.Prelude.{ℕ, List};
ghost use Rattle.ijvm_instr.specs.declared.row.Row.{Row};
ghost use Rattle.ijvm_image.specs.Prelude.{ImageView};
ghost use Rattle.verifier_facts.specs.Paths.{HasRow, IsWhole};
ghost use Rattle.verifier_facts.specs.Facts.{Accepts, IsMainCount};
ghost use Rattle.verifier_facts.specs.Sound.{KeepsSound};

/// An instruction that stands in a text lies in it whole.
pub fn instructions_are_whole()
    ensures { (text : List ℕ) (at : ℕ) (r : Row) → HasRow text at r → IsWhole text at r }
{}

/// Every run of an accepted image stands where a path has come, finds all that its instructions need, and never gets stuck.
pub fn accepted_images_keep_sound()
    ensures { (image : ImageView) (end n : ℕ) → Accepts image end → IsMainCount image n → KeepsSound image end n }
{}
