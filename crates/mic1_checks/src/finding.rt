//! What is not shown of a control store, and why.
use crate::instruction::Instruction;
use crate::shape::Shape;
use mic1_cycles::{Answer, Write};
use mic1_passes::{Followed, Work};
use micro_terms::Nodes;

/// What is asked of a control store.
#[derive(Clone, Copy, Debug, PartialEq, Eq)]
pub enum Asked {
    Instruction(Instruction),
    Err,
    Halt,
    Boot,
}

/// What has to be alike at two boundaries.
#[derive(Clone, Copy, Debug, PartialEq, Eq)]
pub enum Register {
    Sp,
    Lv,
    Cpp,
    Tos,
    Pc,
    /// The byte in MBR, or on the way there.
    Opcode,
}

/// How the second of two paths ends otherwise than the first: `is` is the second one's, `wanted` the first one's. Words are
/// named by number.
#[derive(Clone, Copy, Debug, PartialEq, Eq)]
pub enum Difference {
    /// Both are at a boundary, and a register has other words.
    Register {
        register: Register,
        is: u32,
        wanted: u32,
    },
    /// The write at this place, the oldest being 0.
    Write {
        place: usize,
        is: Option<Write>,
        wanted: Option<Write>,
    },
    /// How many bytes were taken from the console.
    Taken {
        is: u32,
        wanted: u32,
    },
    /// What was given to the console at this place, the oldest being 0.
    Given {
        place: usize,
        is: Option<u32>,
        wanted: Option<u32>,
    },
    /// Where the paths have come; only the kind of each tells, and no count.
    End {
        is: Followed,
        wanted: Followed,
    },
    /// The address at which HALT or ERR ends the run.
    Address {
        is: u16,
        wanted: u16,
    },
    /// The second store has its boundaries at an end of a run.
    EntryIsEnd,
    /// More is asked than is followed, so nothing is known.
    TooMuch,
}

/// The answers on a path that is not shown, and how it differs.
#[derive(Drop)]
pub struct Unlike {
    pub answers: Vec<Answer>,
    pub difference: Difference,
}

/// A path that is not shown.
#[derive(Drop)]
pub struct Finding {
    pub asked: Asked,
    /// What is under way at the boundary where it starts.
    pub shape: Shape,
    /// What the path answers, in the order in which it was asked.
    pub answers: Vec<Answer>,
    pub difference: Difference,
    /// The addresses that the second store clocks, up to where the path ends or asks once more.
    pub addresses: Vec<u16>,
    /// What the numbers stand for. The first eleven are MAR, MDR, PC, SP, LV, TOS, OPC, H, MBR without and with its sign, and
    /// the word under way.
    pub nodes: Nodes,
}

impl Finding {
    pub fn new(asked: Asked, shape: Shape, unlike: Unlike, work: Work) -> Finding {
        let Unlike {
            answers,
            difference,
        } = unlike;
        let Work { nodes, clocked, .. } = work;
        Finding {
            asked,
            shape,
            answers,
            difference,
            addresses: clocked,
            nodes,
        }
    }
}

/// Why a control store is not shown to do what another one does.
#[derive(Drop)]
pub enum NotShown {
    /// The first path that is not shown, what else is not, and that of which nothing is known, because too much is asked.
    /// The order is that of IJVM's table; the boot is last.
    Differs {
        first: Finding,
        others: Vec<Asked>,
        too_much: Vec<Asked>,
    },
    /// All is carried over, but the cycles do not follow from those of the first store; of HALT and ERR, if they depend on
    /// what is under way.
    Costs {
        asked: Asked,
    },
}
