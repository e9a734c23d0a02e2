//! Where a statement goes next.

use micro_word::Test;

/// Where a statement goes next, by targets of one kind: labels, numbers of statements, or what is printed.
#[derive(Clone, Copy)]
pub enum Next<T> {
    /// To the next statement of the program.
    Following,
    Goto(T),
    /// To the statement of the next byte; `high` is `OR 0x100`.
    Dispatch { high: bool },
    Branch { test: Test, yes: T, no: T },
}
