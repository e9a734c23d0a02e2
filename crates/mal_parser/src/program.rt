//! A microprogram as it is read: statements that refer to others by number, not yet placed. Its type keeps that each
//! statement may stand there.

ghost use Rattle.std.specs.Prelude.{◌≡◌, ◌<◌, length, slice_get, option_copied, IfSome, Some};
ghost use Rattle.mal_parser.specs.Program.{IsFallback, IsMalProgram, IsStatement, program_of};

use crate::statement::Statement;
use micro_word::Machine;
use std::marker::Model;

/// A program of 1 to 512 statements, with the statement that unused words hold, where there is one.
#[derive(Drop)]
pub struct MalProgram {
    machine: Machine,
    statements: Vec<Statement>,
    fallback: Option<Statement>,
    entry: u16,
}

impl Model for MalProgram {
    ghost use Rattle.mal_parser.specs.Program.{MalView, IsMalProgram};

    ghost Value = { MalView };

    ghost view = { λ p. record { machine = p.machine; statements = p.statements.items; fallback = p.fallback; entry = p.entry } };

    ghost invariant = { λ p. IsMalProgram (record { machine = p.machine; statements = p.statements.items; fallback = p.fallback; entry = p.entry }) };
}

impl MalProgram {
    pub fn new(
        machine: Machine,
        statements: Vec<Statement>,
        fallback: Option<Statement>,
        entry: u16,
    ) -> MalProgram
        requires { IsMalProgram (program_of machine statements.items fallback entry) }
        ensures { result ≡ program_of machine statements.items fallback entry }
    {
        MalProgram {
            machine,
            statements,
            fallback,
            entry,
        }
    }

    pub fn machine(&self) -> Machine
        ensures { result ≡ self.now.machine }
    {
        self.machine
    }

    /// The number of statements.
    pub fn len(&self) -> u16
        ensures count { result ≡ length self.now.statements }
        ensures program { IsMalProgram self.now }
    {
        self.statements.len() as u16
    }

    /// The statement with this number, which may stand there.
    pub fn statement(&self, s: u16) -> &Statement
        requires { s < length self.now.statements }
        ensures value { slice_get self.now.statements s ≡ Some result.now }
        ensures stands { IsStatement self.now s result.now }
    {
        &self.statements[s as usize]
    }

    /// What unused words hold, which may stand there.
    pub fn fallback(&self) -> Option<&Statement>
        ensures value { option_copied result ≡ self.now.fallback }
        ensures stands { IfSome self.now.fallback (IsFallback self.now) }
    {
        self.fallback.as_ref()
    }

    /// The number of the statement labelled Main1.
    pub fn entry(&self) -> u16
        ensures is { result ≡ self.now.entry }
        ensures program { IsMalProgram self.now }
    {
        self.entry
    }
}
