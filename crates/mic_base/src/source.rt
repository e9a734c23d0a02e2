//! Where bytes come from: the trait that standard input and sources in memory have.

ghost use Rattle.std.specs.Prelude.{ℕ, List, Option};
ghost use Rattle.mic_base.specs.Causes.{HasCause};
ghost use Rattle.mic_base.specs.Streams.{Takes};

use thiserror::Error;

/// A source did not give what comes next.
#[derive(Clone, Copy, Debug, PartialEq, Eq, Error)]
#[error("source failed")]
pub struct SourceFailed;

/// Where bytes come from.
pub trait Source {
    /// The bytes that are left, where they are known.
    ghost left: { Self → Option (List ℕ) };

    /// How often it has failed.
    ghost faults: { Self → ℕ };

    /// The next byte, or none at the end.
    fn get(&mut self) -> Result<Option<u8>, SourceFailed>
        ensures takes { Takes (left self.old) result (left self.new) }
        ensures cause { HasCause (faults self.old) (faults self.new) result };
}
