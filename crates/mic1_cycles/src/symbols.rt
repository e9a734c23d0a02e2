//! The registers of Mic-1, each with the number of its symbolic word.
ghost use Rattle.std.specs.Prelude.{◌≡◌, if◌then◌else◌};
ghost use Rattle.mic1_cycles.specs.Common.{Destination, loads};
ghost use Rattle.mic1_cycles.specs.Symbols.{assigned_symbols, source_symbol};

use micro_word::{BusSource, Destination};

/// A byte: the numbers of its word without its sign and with it.
#[derive(Clone, Copy, Debug, PartialEq, Eq)]
pub struct Byte {
    pub plain: u32,
    pub signed: u32,
}

/// A write to memory: the numbers of its address and of its word.
#[derive(Clone, Copy, Debug, PartialEq, Eq)]
pub struct Write {
    pub at: u32,
    pub value: u32,
}

/// The registers between two cycles. MPC is known: it is an address.
#[derive(Clone, Copy, Debug, PartialEq, Eq)]
pub struct Symbols {
    pub mar: u32,
    pub mdr: u32,
    pub pc: u32,
    pub sp: u32,
    pub lv: u32,
    pub cpp: u32,
    pub tos: u32,
    pub opc: u32,
    pub h: u32,
    pub mbr: Byte,
    pub mpc: u16,
    /// The memory word that the next edge loads into MDR.
    pub word: Option<u32>,
    /// The byte that the next edge loads into MBR.
    pub byte: Option<Byte>,
}

/// The number in a register after a load of the C bus, which has the number `new`.
fn loaded(c: u16, register: Destination, new: u32, old: u32) -> u32
    ensures { result ≡ (if loads c register then new else old) }
{
    if c / register.bit() % 2 == 1 {
        new
    } else {
        old
    }
}

/// The number on the B bus; `empty` is the number of 0, which is there if no register is.
pub fn source(empty: u32, s: &Symbols, b: Option<BusSource>) -> u32
    ensures { result ≡ source_symbol empty s.now b }
{
    match b {
        Some(BusSource::Mdr) => s.mdr,
        Some(BusSource::Pc) => s.pc,
        Some(BusSource::Sp) => s.sp,
        Some(BusSource::Lv) => s.lv,
        Some(BusSource::Cpp) => s.cpp,
        Some(BusSource::Tos) => s.tos,
        Some(BusSource::Opc) => s.opc,
        Some(BusSource::H) => s.h,
        Some(BusSource::Mbr) => s.mbr.signed,
        Some(BusSource::Mbru) => s.mbr.plain,
        _ => empty,
    }
}

/// The registers after the clock edge: the C bus, which has the number `v`, is loaded, and what was under way arrives.
pub fn assigned(dests: u16, v: u32, s: &Symbols) -> Symbols
    ensures { result ≡ assigned_symbols dests v s.now }
{
    let mdr = loaded(dests, Destination::Mdr, v, s.mdr);
    Symbols {
        mar: loaded(dests, Destination::Mar, v, s.mar),
        mdr: s.word.unwrap_or(mdr),
        pc: loaded(dests, Destination::Pc, v, s.pc),
        sp: loaded(dests, Destination::Sp, v, s.sp),
        lv: loaded(dests, Destination::Lv, v, s.lv),
        cpp: loaded(dests, Destination::Cpp, v, s.cpp),
        tos: loaded(dests, Destination::Tos, v, s.tos),
        opc: loaded(dests, Destination::Opc, v, s.opc),
        h: loaded(dests, Destination::H, v, s.h),
        mbr: s.byte.unwrap_or(s.mbr),
        mpc: s.mpc,
        word: None,
        byte: None,
    }
}
