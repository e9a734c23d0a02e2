//! The operands that an instruction leaves, of which TOS has the last one.
ghost use Rattle.std.specs.Prelude.{◌≡◌, ◌≢◌, IfOk, IsTrue};
ghost use Rattle.mic1_checks.specs.Common.{plus, byte_in, Instr, State, Went, Environment, Grows, Holds, IsNode, value};
ghost use Rattle.mic1_checks.specs.Left.{AreLeft, HasTop, wide_index_in};
ghost use Rattle.mic1_checks.specs.Situation.{StartsBefore};

use crate::facts::{is_wide_store, offset_by};
use crate::instruction::{INVOKEVIRTUAL, ISTORE, Instruction, WIDE};
use mic1_cycles::{Path, Symbols};
use micro_terms::{Kind, Node, Nodes, Term};
use std::alloc::{AllocError, Global};

/// What is known of the operands that an instruction leaves.
#[derive(Clone, Copy, Debug, PartialEq, Eq)]
pub enum Operands {
    Unknown,
    /// There are none.
    Empty,
    /// The last one, if there is one, is above the address with this number.
    Above(u32),
}

/// The byte of the text so many places after the opcode.
fn byte_after(
    s: &Symbols,
    places: u32,
    nodes: &mut Nodes,
    alloc: Global,
) -> Result<Term, AllocError>
    ensures value { IfOk result (λ t. Holds nodes.new (λ e. value e.word t ≡ byte_in e.start.words (plus (e.word s.now.pc) places))) }
    ensures grows { Grows nodes.old nodes.new }
{
    let at = offset_by(s.pc, places, nodes, alloc)?;
    let byte = nodes.of_kind(Kind::Byte { at })?;
    let term = nodes.term_of(byte, alloc)?;
    Ok(term)
}

/// The index of the local that WIDE ISTORE stores to.
fn wide_index(s: &Symbols, nodes: &mut Nodes, alloc: Global) -> Result<Term, AllocError>
    ensures value { IfOk result (λ t. Holds nodes.new (λ e. value e.word t ≡ wide_index_in e.start.words (e.word s.now.pc))) }
    ensures grows { Grows nodes.old nodes.new }
{
    let high = byte_after(s, 2, nodes, alloc)?;
    let low = byte_after(s, 3, nodes, alloc)?;
    let times = high.times(256, alloc)?;
    let index = times.plus(&low, alloc)?;
    Ok(index)
}

/// The number of the address of the local with this index.
fn local_at(index: &Term, s: &Symbols, nodes: &mut Nodes, alloc: Global) -> Result<u32, AllocError>
    ensures value { IfOk result (λ i. Holds nodes.new (λ e. e.word i ≡ plus (e.word s.now.lv) (value e.word index.now))) }
    ensures grows { Grows nodes.old nodes.new }
{
    let lv = nodes.term_of(s.lv, alloc)?;
    let at = lv.plus(index, alloc)?;
    let number = nodes.of_term(at)?;
    Ok(number)
}

/// What is known of the operands after an instruction of this kind: a call's method has none, and the local that is stored to
/// is below them.
pub fn operands_after(
    n: Instruction,
    s: &Symbols,
    nodes: &mut Nodes,
    alloc: Global,
) -> Result<Operands, AllocError>
    ensures value { IfOk result (λ operands. Holds nodes.new (λ e. (i : Instr) (to : State) (b : StartsBefore e n s.now i) →
        Went b.v.image b.v.map.stack_end b.s to i → AreLeft e operands to)) }
    ensures grows { Grows nodes.old nodes.new }
{
    if n.opcode == ISTORE {
        let index = byte_after(s, 1, nodes, alloc)?;
        let local = local_at(&index, s, nodes, alloc)?;
        return Ok(Operands::Above(local));
    }
    if n.opcode == WIDE && is_wide_store(n.second) {
        let index = wide_index(s, nodes, alloc)?;
        let local = local_at(&index, s, nodes, alloc)?;
        return Ok(Operands::Above(local));
    }
    if n.opcode == INVOKEVIRTUAL {
        return Ok(Operands::Empty);
    }
    Ok(Operands::Unknown)
}

/// The number of what a number with this node is where the words at two addresses differ: a word that was read at the second
/// one is as it was before the write at the first one.
fn unwritten_in(node: &Node, number: u32, at: u32, sp: u32) -> u32
    ensures { (e : Environment) → IsNode e (e.word number) node.now → e.word at ≢ e.word sp → e.word number ≡ e.word result }
{
    match node {
        Node::Other(
            Kind::Choice {
                left,
                right,
                other,
                ..
            },
        ) => {
            if *left == at && *right == sp {
                *other
            } else {
                number
            }
        }
        _ => number,
    }
}

fn unwritten(number: u32, at: u32, sp: u32, nodes: &Nodes) -> u32
    ensures { Holds nodes.now (λ e. e.word at ≢ e.word sp → e.word number ≡ e.word result) }
{
    match nodes.nodes.get(number as usize) {
        Some(node) => unwritten_in(node, number, at, sp),
        None => number,
    }
}

/// Whether TOS is alike where it has to be an operand.
pub fn are_tops_alike(operands: Operands, p: &Path, q: &Path, nodes: &Nodes) -> bool
    ensures { IsTrue result → Holds nodes.now (λ e. (to : State) → HasTop e operands p.now to → e.word p.now.symbols.tos ≡ e.word q.now.symbols.tos) }
{
    let sp = p.symbols.sp;
    let wanted = p.symbols.tos;
    let is = q.symbols.tos;
    match operands {
        Operands::Unknown => wanted == is,
        Operands::Empty => true,
        Operands::Above(at) => unwritten(wanted, at, sp, nodes) == unwritten(is, at, sp, nodes),
    }
}
