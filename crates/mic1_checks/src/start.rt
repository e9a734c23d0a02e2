//! The symbols of a boundary.
ghost use Rattle.std.specs.Prelude.{◌≡◌, ◌<◌, ℕ, IfOk};
ghost use Rattle.mic1_checks.specs.Common.{Environment, Grows, Holds, HasSigns, AreAnswered, IsPath, moment};
ghost use Rattle.mic1_checks.specs.Start.{IsStart, start_moment};

use crate::left::Operands;
use mic_datapath::sign_extended;
use mic1_cycles::{Answer, Byte, Known, Path, Symbols};
use micro_terms::Nodes;
use std::alloc::{AllocError, Global};

/// Where two stores are followed from.
#[derive(Drop)]
pub struct Start {
    /// The row in which what both spend is counted.
    pub row: u32,
    /// The symbols of the first store's path.
    pub first: Symbols,
    /// Those of the second one's.
    pub second: Symbols,
    pub known: Known,
    /// What is known of the operands where they come to.
    pub operands: Operands,
}

/// The symbols at a boundary where this opcode is in MBR. CPP is that of every run, and nothing is under way.
pub fn begin(opcode: u8, nodes: &mut Nodes, alloc: Global) -> Result<Symbols, AllocError>
    ensures value { IfOk result (λ s. Holds nodes.new (λ e. IsStart e opcode s)) }
    ensures grows { Grows nodes.old nodes.new }
{
    let cpp = nodes.of_word(0x4000, alloc)?;
    let plain = nodes.of_word(u32::from(opcode), alloc)?;
    let signed = nodes.of_word(sign_extended(opcode), alloc)?;
    Ok(Symbols {
        mar: 0,
        mdr: 1,
        pc: 2,
        sp: 3,
        lv: 4,
        cpp,
        tos: 5,
        opc: 6,
        h: 7,
        mbr: Byte { plain, signed },
        mpc: 0,
        word: None,
        byte: None,
    })
}

/// The path that starts there at a store's entry, with these answers.
pub fn path_from(
    s: &Symbols,
    entry: u16,
    answers: &[Answer],
    alloc: Global,
) -> Result<Path, AllocError>
    ensures path { IfOk result (λ p. (e : Environment) → HasSigns e.word s.now → AreAnswered e answers.now → IsPath e p) }
    ensures moment { IfOk result (λ p. (e : Environment) (stalls : ℕ) → moment e stalls entry p ≡ start_moment e stalls entry s.now) }
    ensures mpc { IfOk result (λ p. p.symbols.mpc ≡ entry) }
{
    let answers = Vec::from_slice(alloc, answers)?;
    Ok(Path {
        symbols: Symbols { mpc: entry, ..*s },
        writes: Vec::new(alloc),
        taken: 0,
        given: Vec::new(alloc),
        answers,
    })
}
