//! What notes say of an image.

ghost use Rattle.std.specs.Prelude.{ℕ, List, Option};
ghost use Rattle.console_port.specs.Prelude.{IsMap};
ghost use Rattle.ijvm_image.specs.Prelude.{ImageView};
ghost use Rattle.verifier_facts.specs.Prelude.{Accepts};
ghost use Rattle.verifier_notes.specs.Listed.{Item, IsListed};
ghost use Rattle.verifier_notes.specs.Noted.{Note, IsNoted};

use verifier_facts::instructions_are_whole;

/// An image whose instructions meet their notes is accepted, for either memory map.
pub fn noted_images_are_accepted()
    ensures { (image : ImageView) (note : ℕ → Option Note) (end : ℕ) → IsNoted image note → IsMap end → Accepts image end }
{
    instructions_are_whole();
}

/// An image whose text is a list of instructions that meet their notes and of methods' headers is accepted too.
pub fn listed_images_are_accepted()
    ensures { (image : ImageView) (items : List Item) (end : ℕ) → IsListed image items → IsMap end → Accepts image end }
{
    noted_images_are_accepted();
}
