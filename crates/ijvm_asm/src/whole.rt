//! The whole source: the program that its lines make, or its first refusal.

ghost use Rattle.std.specs.Prelude.{◌≡◌, Ok, None, Some, IfOk, IfErr};
ghost use Rattle.ijvm_asm.specs.Drafts.{RefusesBy};
ghost use Rattle.ijvm_asm.specs.Names.{constants_of};
ghost use Rattle.ijvm_asm.specs.ReadingNames.{missing, whole_program, unknown};
ghost use Rattle.ijvm_asm.specs.Adding.{IsRead};
ghost use Rattle.ijvm_asm.specs.Source.{declarations_of};

use crate::error::AsmError;
use crate::laws::reads_texts;
use crate::resolve::{unit_of, units_of, unknown_lines, unknown_units};
use crate::source::SourceReader;
use ijvm_line::Place;
use ijvm_program::{Constant, Program};
use std::alloc::AllocError;

/// The line that began the innermost section that is open.
fn missing(reader: &SourceReader) -> Option<u32>
    ensures { result ≡ missing reader.now }
{
    match reader.place {
        Place::Outside => None,
        Place::Constants | Place::Code => Some(reader.section),
        Place::Locals => Some(reader.inner),
    }
}

/// The lowest line that names what is not declared.
fn unknown(reader: &SourceReader) -> Option<u32>
    ensures { result ≡ unknown reader.now }
{
    let main = match &reader.main {
        None => None,
        Some(main) => unknown_lines(&reader.constants, &reader.methods, main, None),
    };
    unknown_units(&reader.constants, &reader.methods, main, &reader.units)
}

fn constants_of(reader: &SourceReader) -> Result<Vec<Constant>, AllocError>
    ensures { IfOk result (λ v. v.items ≡ constants_of (declarations_of reader.now)) }
{
    reader
        .constants
        .items()
        .iter()
        .zip(reader.values.iter())
        .map(|(name, value)| Constant {
            name: *name,
            value: *value,
        })
        .collect(reader.alloc)
}

/// The program that the lines make, or the first refusal of the whole source.
#[tactic(auto, unfolding(crate::specs::ReadingNames::whole_program), using(crate::proofs::Known::main_known, crate::proofs::Known::units_known, crate::proofs::WholeSource::memory_only))]
pub(crate) fn whole_program(reader: &SourceReader) -> Result<Program, AsmError>
    requires { IsRead reader.now }
    ensures ok { IfOk result (λ p. whole_program reader.now ≡ Ok p) }
    ensures err { IfErr result (λ e. RefusesBy e (whole_program reader.now)) }
{
    reads_texts();
    if let Some(line) = missing(reader) {
        return Err(AsmError::MissingEnd(line));
    }
    if let Some(line) = unknown(reader) {
        return Err(AsmError::UnknownName(line));
    }
    let Some(draft) = &reader.main else {
        return Err(AsmError::NoMain);
    };
    let Ok(main) = unit_of(reader.alloc, &reader.constants, &reader.methods, draft) else {
        return Err(AsmError::OutOfMemory);
    };
    let Ok(methods) = units_of(
        reader.alloc,
        &reader.constants,
        &reader.methods,
        &reader.units,
    ) else {
        return Err(AsmError::OutOfMemory);
    };
    let Ok(constants) = constants_of(reader) else {
        return Err(AsmError::OutOfMemory);
    };
    Ok(Program::new(constants, main, methods))
}
