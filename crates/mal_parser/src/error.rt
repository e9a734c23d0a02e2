//! The refusals of a text.

ghost use Rattle.std.specs.Prelude.{◌≡◌};

use std::alloc::AllocFailed;
use thiserror::Error;

/// Why a text is no program. The number is that of the line, from 1.
#[derive(Clone, Copy, Debug, PartialEq, Eq, Error)]
#[error("not read as a microprogram")]
pub enum MalError {
    /// A byte begins no token, or a name is too long.
    BadToken(u32),
    /// The tokens do not follow the grammar.
    BadStatement(u32),
    /// A word of the other machine is used.
    WrongMachine(u32),
    /// The expression, the shift or the number of an OR has no coding.
    NoSuchOperation(u32),
    /// The label stands on an earlier statement.
    DuplicateLabel(u32),
    /// A fixed address above 511, a label fixed a second time, or a second `.default`.
    BadFix(u32),
    /// The 513th statement.
    TooMany(u32),
    /// The line names a label that no statement has.
    UnknownLabel(u32),
    /// The last statement, or `.default`, has no goto.
    LastFalls(u32),
    /// No statement has the label Main1.
    NoEntry,
    OutOfMemory,
}

impl<T: Drop> From<AllocFailed<T>> for MalError {
    ghost use Rattle.mal_parser.specs.declared.error.MalError.TheVariants.{OutOfMemory};

    ghost from_gives = { λ _ e. e ≡ OutOfMemory };

    fn from(_: AllocFailed<T>) -> Self {
        MalError::OutOfMemory
    }
}
