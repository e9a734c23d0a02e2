//! Why there is no placement.

use thiserror::Error;

/// Why there is no placement; statements are numbered from 0.
#[derive(Clone, Copy, Debug, PartialEq, Eq, Error)]
#[error("no placement")]
pub enum PlaceError {
    /// It stands in two pairs, or in both roles.
    PairClash(u16),
    /// It is a true target that is fixed below 256, or a false one at 256 or above.
    FixedWrongHalf(u16),
    /// They are forced to one address, or are a pair that is fixed apart.
    FixedClash(u16, u16),
    /// More pairs remain than free address pairs.
    NoRoom,
}
