//! A file says one thing.

ghost use Rattle.std.specs.Prelude.{ℕ, List};
ghost use Rattle.ijvm_image.specs.ImageFile.{IsNeverBoth, IsOfOneImage};

/// A file is that of at most one image, or else it is refused, and never both.
pub fn a_file_says_one_thing()
    ensures one_image { (file : List ℕ) → IsOfOneImage file }
    ensures not_both { (file : List ℕ) → IsNeverBoth file }
{}
