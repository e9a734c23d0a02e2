//! The statements of a program.

use mal_line::Next;
use mic_base::Name;
use micro_word::Part;

/// Where a statement goes next. Targets are numbers of statements, from 0.
pub type MalNext = Next<u16>;

/// A statement of a program.
#[derive(Clone, Copy)]
pub struct Statement {
    pub label: Option<Name>,
    /// The line of the source, from 1.
    pub line: u32,
    pub part: Part,
    pub next: MalNext,
    /// The address that a `.label` gives it.
    pub fixed: Option<u16>,
}
