//! What a microprogram spends, by what the one that ships spends.

ghost use Rattle.std.specs.Prelude.{◌≡◌, ◌==◌, ◌&&◌, find};
ghost use Rattle.mic1_checks.specs.Spent.{cost_by, second_in, spent_by};
ghost use Rattle.cli_check.specs.Table.{own};

use ijvm_instr::{Cost, Instr};
use mic1_checker::{Costs, Counts};

/// The row of the boot's leaves.
const BOOT: u32 = 24;

/// The first leaf of a row in which the microprogram that ships spends so many cycles after the first one.
fn leaf_in(leaves: &[Counts], row: u32, first: u64) -> Option<Counts>
    ensures { result ≡ find (λ c. (c.row == row) && (c.first == first)) leaves.now }
{
    leaves
        .iter()
        .copied()
        .find(|c| c.row == row && u64::from(c.first) == first)
}

/// The cycles of that leaf after the first one.
fn second_in(leaves: &[Counts], row: u32, first: u64) -> Option<u32>
    ensures { result ≡ second_in leaves.now row first }
{
    match leaf_in(leaves, row, first) {
        Some(leaf) => Some(leaf.second),
        None => None,
    }
}

/// The cycles of a row, where the microprogram that ships spends so many.
fn spent_by(leaves: &[Counts], row: u32, spent: u64) -> u64
    ensures { result ≡ spent_by leaves.now row spent }
{
    let second = second_in(leaves, row, spent.saturating_sub(1));
    u64::from(second.unwrap_or(0)) + 1
}

fn cost_by(leaves: &[Counts], row: u32, shipped: Cost) -> Cost
    ensures { result ≡ cost_by (spent_by leaves.now row) shipped }
{
    match shipped {
        Cost::Always(cycles) => Cost::Always(spent_by(leaves, row, cycles)),
        Cost::IfTaken { taken, not } => Cost::IfTaken {
            taken: spent_by(leaves, row, taken),
            not: spent_by(leaves, row, not),
        },
        Cost::ByEntry { early, late } => Cost::ByEntry {
            early: spent_by(leaves, row, early),
            late: spent_by(leaves, row, late),
        },
    }
}

/// The cycles of the boot, which are two of the microprogram that ships.
pub(crate) fn boot_cost(costs: &Costs) -> u64
    ensures { result ≡ (own costs.now).boot }
{
    spent_by(&costs.leaves, BOOT, 2)
}

/// The cycles of an instruction.
pub(crate) fn instr_cost(costs: &Costs, instr: Instr) -> Cost
    ensures { result ≡ (own costs.now).of instr }
{
    let shipped = instr.row().mic1;
    let leaves = &costs.leaves;
    match instr {
        Instr::Nop => cost_by(leaves, 0, shipped),
        Instr::Bipush(_) => cost_by(leaves, 1, shipped),
        Instr::LdcW(_) => cost_by(leaves, 2, shipped),
        Instr::Iload(_) => cost_by(leaves, 3, shipped),
        Instr::Istore(_) => cost_by(leaves, 4, shipped),
        Instr::Pop => cost_by(leaves, 5, shipped),
        Instr::Dup => cost_by(leaves, 6, shipped),
        Instr::Swap => cost_by(leaves, 7, shipped),
        Instr::Iadd => cost_by(leaves, 8, shipped),
        Instr::Isub => cost_by(leaves, 9, shipped),
        Instr::Iand => cost_by(leaves, 10, shipped),
        Instr::Iinc(_, _) => cost_by(leaves, 11, shipped),
        Instr::Ifeq(_) => cost_by(leaves, 12, shipped),
        Instr::Iflt(_) => cost_by(leaves, 13, shipped),
        Instr::IfIcmpeq(_) => cost_by(leaves, 14, shipped),
        Instr::Goto(_) => cost_by(leaves, 15, shipped),
        Instr::Ireturn => cost_by(leaves, 16, shipped),
        Instr::Ior => cost_by(leaves, 17, shipped),
        Instr::Invokevirtual(_) => cost_by(leaves, 18, shipped),
        Instr::WideIload(_) => cost_by(leaves, 19, shipped),
        Instr::WideIstore(_) => cost_by(leaves, 20, shipped),
        Instr::WideIinc(_, _) => cost_by(leaves, 21, shipped),
        Instr::In => cost_by(leaves, 22, shipped),
        Instr::Out => cost_by(leaves, 23, shipped),
        Instr::Err => Cost::Always(u64::from(costs.ends.err) + 1),
        Instr::Halt => Cost::Always(u64::from(costs.ends.halt) + 1),
    }
}
