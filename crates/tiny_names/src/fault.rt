//! Names that do not fit.

ghost use Rattle.std.specs.Prelude.{◌≡◌};

use std::alloc::AllocError;

/// Why a name does not fit, with its line.
#[derive(Clone, Copy, Debug, PartialEq, Eq)]
pub enum Fault {
    DuplicateName(u32),
    UnknownName(u32),
    BadCall(u32),
    ReturnInMain(u32),
    TooManyNames(u32),
    NoMain,
}

/// Why the names of a program are not resolved.
#[derive(Clone, Copy, Debug, PartialEq, Eq)]
pub enum Unresolved {
    Fault(Fault),
    OutOfMemory,
}

impl From<AllocError> for Unresolved {
    ghost use Rattle.tiny_names.specs.declared.fault.Unresolved.TheVariants.{OutOfMemory};

    ghost from_gives = { λ _ e. e ≡ OutOfMemory };

    fn from(_: AllocError) -> Self {
        Unresolved::OutOfMemory
    }
}
