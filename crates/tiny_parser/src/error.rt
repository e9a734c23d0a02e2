//! Why a text is no program, or has no code.

ghost use Rattle.std.specs.Prelude.{◌≡◌};
ghost use Rattle.tiny_parser.specs.Errors.{fault_error, grammar_error, names_error};

use tiny_grammar::Refusal;
use tiny_names::{Fault, Unresolved};

/// Why a text is no program, or has no code: with a line, a count, a size or a distance.
#[derive(Clone, Copy, Debug, PartialEq, Eq)]
pub enum TinyError {
    BadToken(u32),
    BadNumber(u32),
    BadSyntax(u32),
    TooDeep(u32),
    DuplicateName(u32),
    UnknownName(u32),
    BadCall(u32),
    ReturnInMain(u32),
    TooManyNames(u32),
    NoMain,
    PoolTooLong(u32),
    TextTooLong(u32),
    JumpTooFar(u32, i32),
    OutOfMemory,
}

pub(crate) fn grammar_error(last_line: u32, refusal: Refusal) -> TinyError
    ensures { result ≡ grammar_error last_line refusal }
{
    match refusal {
        Refusal::BadToken(line) => TinyError::BadToken(line),
        Refusal::BadNumber(line) => TinyError::BadNumber(line),
        Refusal::BadSyntax(line) => TinyError::BadSyntax(line),
        Refusal::TooDeep(line) => TinyError::TooDeep(line),
        Refusal::Unfinished => TinyError::BadSyntax(last_line),
        Refusal::OutOfMemory => TinyError::OutOfMemory,
    }
}

fn fault_error(fault: Fault) -> TinyError
    ensures { result ≡ fault_error fault }
{
    match fault {
        Fault::DuplicateName(line) => TinyError::DuplicateName(line),
        Fault::UnknownName(line) => TinyError::UnknownName(line),
        Fault::BadCall(line) => TinyError::BadCall(line),
        Fault::ReturnInMain(line) => TinyError::ReturnInMain(line),
        Fault::TooManyNames(line) => TinyError::TooManyNames(line),
        Fault::NoMain => TinyError::NoMain,
    }
}

pub(crate) fn names_error(unresolved: Unresolved) -> TinyError
    ensures { result ≡ names_error unresolved }
{
    match unresolved {
        Unresolved::Fault(fault) => fault_error(fault),
        Unresolved::OutOfMemory => TinyError::OutOfMemory,
    }
}
