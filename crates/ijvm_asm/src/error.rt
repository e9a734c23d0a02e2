//! Why a text is no program.

ghost use Rattle.std.specs.Prelude.{◌≡◌};

use std::alloc::{AllocError, AllocFailed};
use thiserror::Error;

/// Why a text is no program. The number is that of the line, from 1.
#[derive(Clone, Copy, Debug, PartialEq, Eq, Error)]
pub enum AsmError {
    /// A byte begins no token, or a name is too long.
    #[error("line {0}: bad token")]
    BadToken(u32),
    /// The tokens do not follow the grammar at that place.
    #[error("line {0}: bad line")]
    BadLine(u32),
    /// A number cannot be read.
    #[error("line {0}: bad number")]
    BadNumber(u32),
    /// A number is out of its range.
    #[error("line {0}: out of range")]
    OutOfRange(u32),
    /// A name is declared a second time among those that share their names.
    #[error("line {0}: name used twice")]
    DuplicateName(u32),
    /// The unit has more than 65,534 parameters and locals.
    #[error("line {0}: too many names")]
    TooManyNames(u32),
    /// The line begins a section that is not ended.
    #[error("line {0}: section is not ended")]
    MissingEnd(u32),
    /// The line names what is not declared.
    #[error("line {0}: unknown name")]
    UnknownName(u32),
    #[error("no main")]
    NoMain,
    #[error("out of memory")]
    OutOfMemory,
}

impl<T: Drop> From<AllocFailed<T>> for AsmError {
    ghost use Rattle.ijvm_asm.specs.declared.error.AsmError.TheVariants.{OutOfMemory};

    ghost from_gives = { λ _ e. e ≡ OutOfMemory };

    fn from(_: AllocFailed<T>) -> Self {
        AsmError::OutOfMemory
    }
}

impl From<AllocError> for AsmError {
    ghost use Rattle.ijvm_asm.specs.declared.error.AsmError.TheVariants.{OutOfMemory};

    ghost from_gives = { λ _ e. e ≡ OutOfMemory };

    fn from(_: AllocError) -> Self {
        AsmError::OutOfMemory
    }
}
