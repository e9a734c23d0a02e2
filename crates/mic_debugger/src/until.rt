//! How far a clocking command goes on at a time.

/// A memory word, and its value when a command began.
#[derive(Clone, Copy, Debug, PartialEq, Eq)]
pub struct Watched {
    pub at: u32,
    pub value: u32,
}

/// What a clocking command waits for.
#[derive(Clone, Copy, Debug, PartialEq, Eq)]
pub enum Until {
    /// A cycle.
    Cycle,
    /// An instruction boundary.
    Boundary,
    /// A boundary at a breakpoint, or where the watched word has changed.
    Cause(Option<Watched>),
}
