//! What holds of every image in which a program is laid out.

ghost use Rattle.ijvm_image.specs.Prelude.{ImageView};
ghost use Rattle.tiny_code.specs.Prelude.{Places, IsLaidOut};
ghost use Rattle.tiny_tree.specs.Prelude.{IsNamed, Program};
ghost use Rattle.tiny_notes.specs.Accepted.{AlwaysAccepts};

use tiny_code::{laid_out_programs_hold, methods_are_the_others};
use verifier_notes::listed_images_are_accepted;

/// Such an image is accepted, on either memory map, where the program's names are known.
pub fn laid_out_programs_are_accepted()
    ensures { (image : ImageView) (p : Places) (t : Program) → IsNamed t → IsLaidOut image p t → AlwaysAccepts image }
{
    laid_out_programs_hold();
    methods_are_the_others();
    listed_images_are_accepted();
}
