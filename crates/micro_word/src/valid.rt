//! Which statements have a word on a machine.
ghost use Rattle.std.specs.Prelude.{◌≡◌};
ghost use Rattle.micro_word.specs.Coding.{row};
ghost use Rattle.micro_word.specs.Words.{has_operation, may_be_a, may_be_b, fits_side, is_byte, is_pair, is_mixed, may_fetch, is_part, is_next, is_valid};

use crate::statement::{AluOp, BusSource, Part, Placed, PlacedNext};
use mic_words::Machine;

pub(crate) fn has_operation(machine: Machine, op: AluOp) -> bool
    ensures { result ≡ has_operation machine op }
{
    match machine {
        Machine::Mic1 => true,
        Machine::Mic2 => match op {
            AluOp::A | AluOp::NotA | AluOp::IncA => false,
            _ => true,
        },
    }
}

fn may_drive_a(machine: Machine, source: BusSource) -> bool
    ensures { result ≡ may_be_a machine source }
{
    match machine {
        Machine::Mic1 => match source {
            BusSource::H => true,
            _ => false,
        },
        Machine::Mic2 => source.code(Machine::Mic2).is_some(),
    }
}

fn fits_a(machine: Machine, used: bool, a: Option<BusSource>) -> bool
    ensures { result ≡ fits_side used (may_be_a machine) a }
{
    match a {
        None => !used,
        Some(source) => used && may_drive_a(machine, source),
    }
}

fn fits_b(machine: Machine, used: bool, b: Option<BusSource>) -> bool
    ensures { result ≡ fits_side used (may_be_b machine) b }
{
    match b {
        None => !used,
        Some(source) => used && source.code(machine).is_some(),
    }
}

/// MBR1 or MBR1U.
fn is_one_byte(source: Option<BusSource>) -> bool
    ensures { result ≡ is_byte source }
{
    match source {
        Some(BusSource::Mbr1) | Some(BusSource::Mbr1u) => true,
        _ => false,
    }
}

/// MBR2 or MBR2U.
fn is_two_bytes(source: Option<BusSource>) -> bool
    ensures { result ≡ is_pair source }
{
    match source {
        Some(BusSource::Mbr2) | Some(BusSource::Mbr2u) => true,
        _ => false,
    }
}

pub(crate) fn mixes(a: Option<BusSource>, b: Option<BusSource>) -> bool
    ensures { result ≡ is_mixed a b }
{
    (is_one_byte(a) && is_two_bytes(b)) || (is_two_bytes(a) && is_one_byte(b))
}

fn fits_fetch(machine: Machine, fetch: bool) -> bool
    ensures { result ≡ may_fetch machine fetch }
{
    match machine {
        Machine::Mic1 => true,
        Machine::Mic2 => !fetch,
    }
}

impl Part {
    /// Whether it stands in a statement that has a word on the machine.
    pub fn valid(&self, machine: Machine) -> bool
        ensures { result ≡ is_part machine self.now }
    {
        let row = self.op.row();
        self.dests < 512
            && has_operation(machine, self.op)
            && fits_a(machine, row.uses_a, self.a)
            && fits_b(machine, row.uses_b, self.b)
            && !mixes(self.a, self.b)
            && fits_fetch(machine, self.fetch)
    }
}

impl PlacedNext {
    /// Whether its addresses are in reach.
    pub fn valid(&self) -> bool
        ensures { result ≡ is_next self.now }
    {
        match self {
            PlacedNext::Goto(to) => *to < 512,
            PlacedNext::Dispatch { .. } => true,
            PlacedNext::Branch { no, .. } => *no < 256,
        }
    }
}

impl Placed {
    /// Whether it has a canonical word on the machine.
    pub fn valid(&self, machine: Machine) -> bool
        ensures { result ≡ is_valid machine self.now }
    {
        self.part.valid(machine) && self.next.valid()
    }
}
