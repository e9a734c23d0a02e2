//! The table from which symbolic runs start: the registers that a boundary leaves free are its first numbers.
ghost use Rattle.std.specs.Prelude.{◌≡◌, IfOk, IsTrue, Some, slice_get};
ghost use Rattle.mic1_checks.specs.Start.{HasRegisters, register_ranges};

use micro_terms::{Node, Nodes, Range};
use std::alloc::{AllocError, Global};

/// How many numbers a boundary leaves free: MAR, MDR, PC, SP, LV, TOS, OPC, H, MBR without and with its sign, and the
/// word under way.
const REGISTERS: u32 = 11;

const ANY: Range = Range {
    low: 0,
    high: 0xFFFF_FFFF,
};

/// A table of free registers. That it has them is tested in the end (`has_registers`), not promised here.
pub fn free_registers(alloc: Global) -> Result<Nodes, AllocError> {
    let mut nodes = Nodes {
        nodes: Vec::new(alloc),
    };
    for _ in 0..REGISTERS {
        nodes.nodes.push(Node::Free)?;
    }
    Ok(nodes)
}

fn is_free(table: &[Node], i: usize) -> bool
    ensures { IsTrue result → slice_get table.now i ≡ Some Node.Free }
{
    match table.get(i) {
        Some(Node::Free) => true,
        _ => false,
    }
}

/// Whether the first eleven numbers are free.
pub fn has_registers(table: &[Node]) -> bool
    ensures { IsTrue result → HasRegisters table.now }
{
    is_free(table, 0)
        && is_free(table, 1)
        && is_free(table, 2)
        && is_free(table, 3)
        && is_free(table, 4)
        && is_free(table, 5)
        && is_free(table, 6)
        && is_free(table, 7)
        && is_free(table, 8)
        && is_free(table, 9)
        && is_free(table, 10)
}

/// Where the registers are at each boundary.
pub fn ranges_of_registers(alloc: Global) -> Result<Vec<Range>, AllocError>
    ensures { IfOk result (λ ranges. ranges.items ≡ register_ranges) }
{
    let pc = Range {
        low: 0,
        high: 0xFFFF,
    };
    let sp = Range {
        low: 0x7FFF,
        high: 0x1_FFFF,
    };
    let lv = Range {
        low: 0x8000,
        high: 0x2_0000,
    };
    Vec::from_slice(alloc, &[ANY, ANY, pc, sp, lv])
}
