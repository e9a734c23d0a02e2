//! The registers of a machine, and where it starts.

ghost use Rattle.std.specs.Prelude.{◌≡◌};

use arrayvec::ArrayVec;

/// Where fetched bytes wait.
#[derive(Debug, Drop, PartialEq, Eq)]
pub enum Tail {
    /// The one byte of Mic-1.
    Mbr(u8),
    /// The bytes of Mic-2's fetch unit, and the word address of its next word.
    Queue { bytes: ArrayVec<u8, 6>, imar: u32 },
}

#[derive(Debug, Drop, PartialEq, Eq)]
pub struct Registers {
    pub mar: u32,
    pub mdr: u32,
    pub pc: u32,
    pub sp: u32,
    pub lv: u32,
    pub cpp: u32,
    pub tos: u32,
    pub opc: u32,
    pub h: u32,
    pub mpc: u16,
    pub tail: Tail,
}

impl Tail {
    /// A copy.
    pub fn again(&self) -> Tail
        ensures { result ≡ self.now }
    {
        match self {
            Tail::Mbr(byte) => Tail::Mbr(*byte),
            Tail::Queue { bytes, imar } => Tail::Queue {
                bytes: ArrayVec::try_from(bytes.as_slice()).unwrap(),
                imar: *imar,
            },
        }
    }
}

impl Registers {
    /// A copy, which needs no memory.
    pub fn again(&self) -> Registers
        ensures { result ≡ self.now }
    {
        Registers {
            mar: self.mar,
            mdr: self.mdr,
            pc: self.pc,
            sp: self.sp,
            lv: self.lv,
            cpp: self.cpp,
            tos: self.tos,
            opc: self.opc,
            h: self.h,
            mpc: self.mpc,
            tail: self.tail.again(),
        }
    }
}

/// What a reset takes over.
#[derive(Clone, Copy, Debug, PartialEq, Eq)]
pub struct Start {
    /// The first MPC.
    pub entry: u16,
    pub sp: u32,
    /// The memory word at address 0.
    pub first: u32,
}
