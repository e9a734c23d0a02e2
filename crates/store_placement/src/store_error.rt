//! Why bytes are no store file.

use thiserror::Error;

/// Why bytes are no store file.
#[derive(Clone, Copy, Debug, PartialEq, Eq, Error)]
#[error("not read as a control store")]
pub enum StoreError {
    /// The bytes begin with the magic of neither machine.
    BadMagic,
    /// There are this many bytes, and not 2,564.
    BadLength(usize),
    /// The lowest address whose word is not canonical.
    BadWord(u16),
    OutOfMemory,
}
