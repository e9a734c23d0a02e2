//! How a run of a program ends by the definition, which knows no machine.

/// How a run ends.
#[derive(Clone, Copy, Debug, PartialEq, Eq)]
pub enum RunEnd {
    Halt,
    Err,
    Bound,
    StackLimit,
}
