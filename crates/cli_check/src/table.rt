//! What is printed of a microprogram that is proved.

ghost use Rattle.std.specs.Prelude.{◌≡◌, ◌≤◌, ◌+◌, ◌++◌, length, IfOk, OnOk};
ghost use Rattle.cli_check.specs.Table.{boot_line, cost_text, instr_line, proved_text, row_line, rows_text};

use crate::costs::{boot_cost, instr_cost};
use ijvm_instr::{Cost, INSTRUCTIONS, Instr, name};
use mic_base::Line;
use mic1_checker::Costs;
use std::alloc::{AllocError, Global};

const PROVED: &[u8] =
    b"proved: with this microprogram Mic-1 interprets IJVM, for every accepted program, input and bound, in these cycles\n";

fn print_cost(line: &mut Line, cost: Cost)
    requires { length line.old + 75 ≤ 512 }
    ensures text { line.new ≡ line.old ++ cost_text cost }
    ensures len { length line.new ≤ length line.old + 75 }
{
    match cost {
        Cost::Always(cycles) => line.number("", cycles),
        Cost::IfTaken { taken, not } => {
            line.number("", taken);
            line.number(" taken, ", not);
            line.text(" not");
        }
        Cost::ByEntry { early, late } => {
            line.number("", early);
            line.number(", or ", late);
            line.text(" where the entry mod 4 is 3");
        }
    }
}

/// A name, its cycles, and those of the microprogram that ships.
fn row_line(name: &str, cost: Cost, shipped: Cost) -> Line
    requires { length name.now ≤ 13 }
    ensures { result ≡ row_line name.now cost shipped }
{
    let mut line = Line::new();
    line.text(name);
    line.text(" ");
    print_cost(&mut line, cost);
    line.text(" (shipped ");
    print_cost(&mut line, shipped);
    line.text(")\n");
    line
}

fn boot_line(costs: &Costs) -> Line
    ensures { result ≡ boot_line costs.now }
{
    row_line("boot", Cost::Always(boot_cost(costs)), Cost::Always(2))
}

fn instr_line(costs: &Costs, instr: Instr) -> Line
    ensures { result ≡ instr_line costs.now instr }
{
    row_line(name(instr), instr_cost(costs, instr), instr.row().mic1)
}

/// Adds the lines of these instructions.
fn push_rows(text: &mut Vec<u8>, costs: &Costs, table: &[Instr]) -> Result<(), AllocError>
    ensures { OnOk result (text.new.items ≡ text.old.items ++ rows_text costs.now table.now) }
{
    for instr in table {
        text.extend_from_slice(instr_line(costs, *instr).bytes())?;
    }
    Ok(())
}

/// The table of a microprogram with these costs.
pub(crate) fn proved_text(alloc: Global, costs: &Costs) -> Result<Vec<u8>, AllocError>
    ensures { IfOk result (λ text. text.items ≡ proved_text costs.now) }
{
    let mut text = Vec::from_slice(alloc, PROVED)?;
    text.extend_from_slice(boot_line(costs).bytes())?;
    push_rows(&mut text, costs, &INSTRUCTIONS)?;
    Ok(text)
}
