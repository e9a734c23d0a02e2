//! The refusals of the linker.

ghost use Rattle.std.specs.Prelude.{◌≡◌};

use std::alloc::{AllocError, AllocFailed};
use thiserror::Error;

/// Why a program has no image.
#[derive(Clone, Copy, Debug, PartialEq, Eq, Error)]
pub enum LinkError {
    /// This many constants and methods, above 16,384.
    #[error("{0} constants")]
    PoolTooLong(u32),
    /// This many bytes of text, above 65,536.
    #[error("{0} bytes of text")]
    TextTooLong(u32),
    /// The line of the first jump whose distance is no number of 16 bits, and the distance.
    #[error("line {0}: jump of {1} is too far")]
    JumpTooFar(u32, i32),
    #[error("out of memory")]
    OutOfMemory,
}

impl From<AllocError> for LinkError {
    ghost use Rattle.method_linker.specs.declared.error.LinkError.TheVariants.{OutOfMemory};

    ghost from_gives = { λ _ e. e ≡ OutOfMemory };

    fn from(_: AllocError) -> Self {
        LinkError::OutOfMemory
    }
}

impl<T: Drop> From<AllocFailed<T>> for LinkError {
    ghost use Rattle.method_linker.specs.declared.error.LinkError.TheVariants.{OutOfMemory};

    ghost from_gives = { λ _ e. e ≡ OutOfMemory };

    fn from(_: AllocFailed<T>) -> Self {
        LinkError::OutOfMemory
    }
}
