//! The shipped microprograms as programs.

ghost use Rattle.std.specs.Prelude.{◌≡◌, IfOk, option_map};
ghost use Rattle.mal_parser.specs.Prelude.{relined, IsMalProgram};
ghost use Rattle.mal_shipped.specs.Listing.{listed_program, text_of, unlined, without_line};

use crate::mic1::MIC1;
use crate::mic2::MIC2;
use mal_parser::{MalProgram, Statement, canonical_text_spells_its_program, parse_mal};
use micro_word::Machine;
use std::alloc::{AllocError, Global};

/// The text of the microprogram that interprets IJVM on this machine.
pub fn shipped_text(machine: Machine) -> &'static str
    ensures { result.now ≡ text_of machine }
{
    match machine {
        Machine::Mic1 => MIC1,
        Machine::Mic2 => MIC2,
    }
}

fn without_line(statement: &Statement) -> Statement
    ensures { result ≡ without_line statement.now }
{
    Statement {
        line: 0,
        ..*statement
    }
}

fn fallback_of(program: &MalProgram) -> Option<Statement>
    ensures { result ≡ option_map without_line program.now.fallback }
{
    match program.fallback() {
        Some(fallback) => Some(without_line(fallback)),
        None => None,
    }
}

/// The program with 0 for each line number.
#[tactic(auto, using(crate::proofs::Lines::one_more))]
fn unlined(alloc: Global, program: &MalProgram) -> Result<MalProgram, AllocError>
    requires { IsMalProgram (unlined program.now) }
    ensures { IfOk result (λ p. p ≡ unlined program.now) }
{
    let mut statements = Vec::new(alloc);
    for s in 0..program.len() {
        statements.push(without_line(program.statement(s)))?;
    }
    let fallback = fallback_of(program);
    Ok(MalProgram::new(program.machine(), statements, fallback, program.entry()))
}

/// The program of a machine's text, with the line numbers of that text.
pub(crate) fn read(alloc: Global, machine: Machine) -> Result<MalProgram, AllocError>
    ensures { IfOk result (λ p. p ≡ relined (listed_program machine)) }
{
    canonical_text_spells_its_program();
    match parse_mal(alloc, machine, shipped_text(machine).as_bytes()) {
        Ok(program) => Ok(program),
        Err(_) => Err(AllocError),
    }
}

/// The microprogram that interprets IJVM on this machine, with 0 for each line number.
#[tactic(auto, using(crate::proofs::Lines::unlined_is_program, crate::proofs::Lines::unlined_of))]
pub fn shipped_program(alloc: Global, machine: Machine) -> Result<MalProgram, AllocError>
    ensures { IfOk result (λ p. p ≡ listed_program machine) }
{
    let program = read(alloc, machine)?;
    unlined(alloc, &program)
}
