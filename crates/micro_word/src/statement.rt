//! What a microinstruction does, in the words of the microassembly language.

/// What a bus may carry.
#[derive(Clone, Copy, Debug, PartialEq, Eq)]
pub enum BusSource {
    Mdr,
    Pc,
    Mbr,
    Mbru,
    Sp,
    Lv,
    Cpp,
    Tos,
    Opc,
    Mbr1,
    Mbr1u,
    Mbr2,
    Mbr2u,
    H,
}

#[derive(Clone, Copy, Debug, PartialEq, Eq)]
pub enum AluOp {
    A,
    B,
    NotA,
    NotB,
    Sum,
    SumInc,
    IncA,
    IncB,
    Sub,
    DecB,
    NegA,
    And,
    Or,
    Zero,
    One,
    MinusOne,
}

#[derive(Clone, Copy, Debug, PartialEq, Eq)]
pub enum Shift {
    None,
    Left8,
    Right1,
}

#[derive(Clone, Copy, Debug, PartialEq, Eq)]
pub enum Mem {
    None,
    Read,
    Write,
}

#[derive(Clone, Copy, Debug, PartialEq, Eq)]
pub enum Test {
    N,
    Z,
}

/// All of a statement but where it goes next.
#[derive(Clone, Copy, Debug, PartialEq, Eq)]
pub struct Part {
    /// The sum of the bits of the destinations.
    pub dests: u16,
    pub op: AluOp,
    pub a: Option<BusSource>,
    pub b: Option<BusSource>,
    pub shift: Shift,
    pub mem: Mem,
    pub fetch: bool,
}

impl Part {
    /// A statement without parts: it computes 0 and stores it nowhere.
    pub const IDLE: Part = Part {
        dests: 0,
        op: AluOp::Zero,
        a: None,
        b: None,
        shift: Shift::None,
        mem: Mem::None,
        fetch: false,
    };
}

#[derive(Clone, Copy, Debug, PartialEq, Eq)]
pub enum PlacedNext {
    Goto(u16),
    Dispatch { high: bool },
    Branch { test: Test, no: u16 },
}

/// A statement that knows the addresses of its targets.
#[derive(Clone, Copy, Debug, PartialEq, Eq)]
pub struct Placed {
    pub part: Part,
    pub next: PlacedNext,
}
