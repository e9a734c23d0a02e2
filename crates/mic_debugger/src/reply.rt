//! What a session replies to a line.

/// What came of a line. The last four change nothing.
#[derive(Clone, Copy, Debug, PartialEq, Eq)]
pub enum Reply {
    Done,
    Quit,
    /// The line has a word and is no command, or has more than 255 bytes.
    BadCommand,
    /// The command's number cannot be read, or is out of its range.
    BadNumber,
    /// The line would set the 65th breakpoint.
    TooManyBreaks,
    /// The board has ended, and is clocked no more.
    Ended,
}
