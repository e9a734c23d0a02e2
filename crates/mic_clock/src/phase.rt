//! How far a machine has come in its cycle.

/// What was done last of the four subcycles.
#[derive(Clone, Copy, Debug, PartialEq, Eq)]
pub enum Phase {
    AtRest,
    SetUp,
    Driven,
    AtEdge,
}
