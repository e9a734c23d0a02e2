//! What a cycle computes.
ghost use Rattle.std.specs.Prelude.{IfOk};
ghost use Rattle.micro_terms.specs.Prelude.{Grows, Holds};
ghost use Rattle.mic1_cycles.specs.Cycle.{IsComputed};

use crate::symbols::{Symbols, source};
use micro_terms::Nodes;
use micro_word::Part;
use std::alloc::{AllocError, Global};

/// The numbers of 0, of the ALU's result and of the shifted result.
#[derive(Clone, Copy, Debug, PartialEq, Eq)]
pub struct Values {
    pub zero: u32,
    pub x: u32,
    pub v: u32,
}

pub fn computed(
    part: &Part,
    s: &Symbols,
    nodes: &mut Nodes,
    alloc: Global,
) -> Result<Values, AllocError>
    ensures value { IfOk result (λ r. Holds nodes.new (λ e. IsComputed e.word e.start part.now r.zero r.x r.v s.now)) }
    ensures grows { Grows nodes.old nodes.new }
{
    let zero = nodes.of_word(0, alloc)?;
    let a = nodes.term_of(s.h, alloc)?;
    let b = nodes.term_of(source(zero, s, part.b), alloc)?;
    let sum = nodes.alu(part.op, &a, &b, alloc)?;
    let bus = nodes.shifted(part.shift, &sum, alloc)?;
    let x = nodes.of_term(sum)?;
    let v = nodes.of_term(bus)?;
    Ok(Values { zero, x, v })
}
