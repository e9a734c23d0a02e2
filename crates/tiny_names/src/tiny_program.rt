//! A program of Tiny; its type keeps that its names are resolved.

ghost use Rattle.std.specs.Prelude.{◌≡◌, map};
ghost use Rattle.tiny_names.specs.View.{program_tree};
ghost use Rattle.tiny_tree.specs.Prelude.{function_tree};

use tiny_tree::{Function, Items};

/// A Tiny program, in which every name is a position.
#[derive(Drop)]
pub struct TinyProgram {
    functions: Items<Function>,
    main: u32,
}

impl TinyProgram {
    pub(crate) fn new(functions: Items<Function>, main: u32) -> TinyProgram
        ensures { program_tree result ≡ record { functions = map function_tree functions; main = main } }
    {
        TinyProgram { functions, main }
    }

    /// Its functions, by position.
    pub fn functions(&self) -> &[Function]
        ensures { map function_tree result.now ≡ (program_tree self.now).functions }
    {
        self.functions.items()
    }

    /// The position of `main`.
    pub fn main(&self) -> u32
        ensures { result ≡ (program_tree self.now).main }
    {
        self.main
    }
}
