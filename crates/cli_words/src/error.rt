//! Why words are refused.

/// Why the words of a command line ask for nothing.
#[derive(Clone, Copy, Debug, PartialEq, Eq)]
pub enum WordsError {
    Usage,
    OutOfMemory,
}
