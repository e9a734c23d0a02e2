//! The lines of a cycle.

ghost use Rattle.std.specs.Prelude.{◌≡◌, ◌≤◌, ◌<◌, ◌+◌, ◌++◌, length};
ghost use Rattle.store_placement.specs.Prelude.{Places, demands_of};
ghost use Rattle.cli_watchers.specs.Lines.{ShowsWord, bus_line, cycle_line, flag_text, state_lines};

use crate::names::print_word;
use mal_parser::MalProgram;
use mic_base::Line;
use mic_clock::{Computed, Drive, print_state};
use mic_watched::Cycle;
use store_placement::Placement;

/// The cycle's number, the address of its word, and that word's label and text.
pub fn cycle_line(program: &MalProgram, placement: &Placement, cycle: &Cycle) -> Line
    requires placed { Places (demands_of program.now) placement.now }
    requires mpc { cycle.now.mpc < 512 }
    ensures { ShowsWord program.now placement.now cycle.now.mpc (cycle_line cycle.now) result }
{
    let mut line = Line::numbered("", cycle.counts.cycles);
    line.text(" ");
    line.hex(u64::from(cycle.mpc), 3);
    line.text(" ");
    print_word(
        program,
        placement,
        cycle.mpc,
        cycle.drive.stalled,
        &mut line,
    );
    line.text("\n");
    line
}

fn print_flag(line: &mut Line, before: &str, flag: bool)
    requires { length line.old + length before.now + 1 ≤ 512 }
    ensures text { line.new ≡ line.old ++ flag_text before.now flag }
    ensures len { length line.new ≡ length line.old + length before.now + 1 }
{
    line.text(before);
    line.text(if flag { "1" } else { "0" });
}

/// Appends the line of the values on the buses.
pub fn bus_line(drive: &Drive, computed: &Computed, line: &mut Line)
    requires { length line.old + 68 ≤ 512 }
    ensures text { line.new ≡ line.old ++ bus_line drive.now computed.now }
    ensures len { length line.new ≤ length line.old + 68 }
{
    line.word("  a ", drive.a);
    line.word(" b ", drive.b);
    line.word(" alu ", computed.alu.value);
    line.word(" c ", computed.c);
    print_flag(line, " n ", computed.alu.n);
    print_flag(line, " z ", computed.alu.z);
    line.text("\n");
}

/// The line of the buses, if it is asked for and the cycle was no stall, and the line of the registers after the edge.
pub fn state_lines(buses: bool, cycle: &Cycle) -> Line
    requires { cycle.now.registers.mpc < 512 }
    ensures { result ≡ state_lines buses cycle.now }
{
    let mut line = Line::new();
    if buses && !cycle.drive.stalled {
        bus_line(&cycle.drive, &cycle.computed, &mut line);
    }
    line.text("  ");
    print_state(&cycle.registers, &mut line);
    line.text("\n");
    line
}
