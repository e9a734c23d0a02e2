//! Why an image is refused.

ghost use Rattle.std.specs.Prelude.{◌≡◌};

use std::alloc::{AllocError, AllocFailed};
use thiserror::Error;

/// A fact of the refused image. Where several are true, any one of them is reported.
#[derive(Clone, Copy, Debug, PartialEq, Eq, Error)]
pub enum VerifyError {
    /// The address is reached, and no whole instruction stands there.
    #[error("bad code at {0}")]
    BadCode(u32),
    /// The reached instruction goes on past the text's end.
    #[error("{0} falls off")]
    FallsOff(u32),
    /// The reached jump leads outside the text.
    #[error("bad target at {0}")]
    BadTarget(u32),
    /// The byte belongs to two reached instructions or headers.
    #[error("overlap at {0}")]
    Overlap(u32),
    /// The reached instruction names a constant, by its index, that the pool does not have.
    #[error("{0} names no constant {1}")]
    BadConstant(u32, u16),
    /// No header with code after it stands inside the text where this constant of a reached call points.
    #[error("constant {0} is no method")]
    BadEntry(u16),
    /// The reached method has a parameter count of 0.
    #[error("bad header at {0}")]
    BadHeader(u32),
    /// The reached instruction of a method names local 0.
    #[error("{0} names the link word")]
    LinkSlot(u32),
    /// The reached instruction of a method names a local that the method does not have.
    #[error("{0} names no local {1}")]
    BadLocal(u32, u16),
    /// A path comes to this read of a method's own local with no store to that local before.
    #[error("{0} reads local {1} unset")]
    UnsetLocal(u32, u16),
    /// A path comes to the call at this address with fewer operands, the first number, than the method has parameters, the second.
    #[error("{0} has {1} of {2} arguments")]
    TooFewArguments(u32, u32, u32),
    /// A path comes to another instruction with fewer operands than it needs.
    #[error("underflow at {0}")]
    Underflow(u32),
    /// Two paths come to the address, the first with fewer operands than the second.
    #[error("depth {1} and {2} at {0}")]
    DepthDiffers(u32, u32, u32),
    /// A return is reached in main.
    #[error("return in main at {0}")]
    ReturnInMain(u32),
    /// Main's locals, this many, do not fit between their place and the stack's end.
    #[error("{0} locals in main")]
    MainFrame(u32),
    #[error("out of memory")]
    OutOfMemory,
}

impl From<AllocError> for VerifyError {
    ghost use Rattle.verifier_facts.specs.declared.error.VerifyError.TheVariants.{OutOfMemory};

    ghost from_gives = { λ _ e. e ≡ OutOfMemory };

    fn from(_error: AllocError) -> VerifyError {
        VerifyError::OutOfMemory
    }
}

impl<T: Drop> From<AllocFailed<T>> for VerifyError {
    ghost use Rattle.verifier_facts.specs.declared.error.VerifyError.TheVariants.{OutOfMemory};

    ghost from_gives = { λ _ e. e ≡ OutOfMemory };

    fn from(_error: AllocFailed<T>) -> VerifyError {
        VerifyError::OutOfMemory
    }
}
