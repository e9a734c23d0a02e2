//! Why a command of a session was broken off.

ghost use Rattle.std.specs.Prelude.{◌≡◌};

use mic_base::SinkFailed;
use thiserror::Error;

/// A sink failed: the console bytes or the replies were not all written.
#[derive(Clone, Copy, Debug, PartialEq, Eq, Error)]
pub enum SessionFault {
    #[error("write fault")]
    WriteFault,
}

impl From<SinkFailed> for SessionFault {
    ghost use Rattle.mic_debugger.specs.declared.fault.SessionFault.TheVariants.{WriteFault};

    ghost from_gives = { λ _ e. e ≡ WriteFault };

    fn from(_: SinkFailed) -> SessionFault {
        SessionFault::WriteFault
    }
}

impl From<SessionFault> for SinkFailed {
    fn from(_: SessionFault) -> SinkFailed {
        SinkFailed
    }
}
