//! The parts of a statement, as they are written.
use crate::chain::Assignment;
use crate::next::Next;
use mic_base::Name;
use micro_word::Mem;

/// Where a statement says that it goes next; None where its OR has another number than 0x100.
pub type Jump = Option<Next<Name>>;

/// The parts of a statement, as they are written.
#[derive(Clone, Copy)]
pub struct Tree {
    pub assignment: Option<Assignment>,
    pub mem: Mem,
    pub fetch: bool,
    pub next: Option<Jump>,
}

impl Tree {
    pub const EMPTY: Tree = Tree {
        assignment: None,
        mem: Mem::None,
        fetch: false,
        next: None,
    };
}
