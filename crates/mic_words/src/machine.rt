//! Which of the book's two datapaths.

/// The two datapaths.
#[derive(Clone, Copy, Debug, PartialEq, Eq)]
pub enum Machine {
    Mic1,
    Mic2,
}
