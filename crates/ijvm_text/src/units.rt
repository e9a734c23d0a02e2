//! A text of units, and where each method in it begins.

ghost use Rattle.std.specs.Prelude.{◌≡◌, [], None};

use crate::text::Text;
use std::alloc::Global;

/// The text of main and of methods after it, each with its header, and the address of each header.
#[derive(Drop)]
pub struct Units {
    pub text: Text,
    pub entries: Vec<u32>,
}

impl Units {
    pub fn new(alloc: Global) -> Units
        ensures empty { result.text.bytes.items ≡ [] }
        ensures near { result.text.far ≡ None }
        ensures none { result.entries.items ≡ [] }
    {
        Units {
            text: Text::new(alloc),
            entries: Vec::new(alloc),
        }
    }
}
