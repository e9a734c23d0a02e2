//! What a source comes to before it is linked: its constants, main and its methods.

ghost use Rattle.std.specs.Prelude.{◌≡◌};
ghost use Rattle.ijvm_program.specs.Program.{IsProgram};

use crate::line::Constant;
use crate::unit::Unit;
use std::marker::Model;

/// A program: its constants, its main and its methods, in the order of the source.
#[derive(Drop)]
pub struct Program {
    constants: Vec<Constant>,
    main: Unit,
    methods: Vec<Unit>,
}

impl Model for Program {
    ghost use Rattle.ijvm_program.specs.Program.{ProgramView, IsProgram};

    ghost Value = { ProgramView };

    ghost view = { λ p. record { constants = p.constants.items; main = p.main; methods = p.methods.items } };

    ghost invariant = { λ p. IsProgram (record { constants = p.constants.items; main = p.main; methods = p.methods.items }) };
}

impl Program {
    pub fn new(constants: Vec<Constant>, main: Unit, methods: Vec<Unit>) -> Program
        requires { IsProgram (record { constants = constants.items; main = main; methods = methods.items }) }
        ensures { result ≡ record { constants = constants.items; main = main; methods = methods.items } }
    {
        Program {
            constants,
            main,
            methods,
        }
    }

    pub fn constants(&self) -> &[Constant]
        ensures is { result.now ≡ self.now.constants }
        ensures program { IsProgram self.now }
    {
        &self.constants
    }

    pub fn main(&self) -> &Unit
        ensures is { result.now ≡ self.now.main }
        ensures program { IsProgram self.now }
    {
        &self.main
    }

    pub fn methods(&self) -> &[Unit]
        ensures is { result.now ≡ self.now.methods }
        ensures program { IsProgram self.now }
    {
        &self.methods
    }
}
