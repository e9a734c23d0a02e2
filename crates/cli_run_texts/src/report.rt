//! The report of a run: its end, its counts, the last boundary, and of a clocked run the registers.

ghost use Rattle.std.specs.Prelude.{◌≡◌, ◌≤◌, ◌<◌, ◌+◌, ◌++◌, length};
ghost use Rattle.cli_run_texts.specs.Report.{boundary_line, clocked_head, counts_text, cycles_of, head, left_report, plain_head, quit_report, report};

use crate::ends::{clocked_end, end_name};
use ijvm_reference::PlainReport;
use mic_base::Line;
use mic_clock::{Boundary, Counts, End, Registers, print_state};

fn boundary_line(line: &mut Line, boundary: Option<Boundary>)
    requires { length line.old + 66 ≤ 512 }
    ensures text { line.new ≡ line.old ++ boundary_line boundary }
    ensures len { length line.new ≤ length line.old + 66 }
{
    match boundary {
        None => line.text("boundary none\n"),
        Some(boundary) => {
            line.number("boundary ", boundary.cycles);
            line.word(" at ", boundary.at);
            line.word(" sp ", boundary.sp);
            line.word(" lv ", boundary.lv);
            line.text("\n");
        }
    }
}

/// Appends the counts and the last boundary, after the name of the end.
fn add_counts(line: &mut Line, cycles: u64, instructions: u64, boundary: Option<Boundary>)
    requires { length line.old + 130 ≤ 512 }
    ensures text { line.new ≡ line.old ++ counts_text cycles instructions boundary }
    ensures len { length line.new ≤ length line.old + 130 }
{
    line.number("\ncycles ", cycles);
    line.number(" instructions ", instructions);
    line.text("\n");
    boundary_line(line, boundary);
}

/// Appends the three lines that begin each report.
fn head(line: &mut Line, end: End, cycles: u64, instructions: u64, boundary: Option<Boundary>)
    requires { length line.old + 166 ≤ 512 }
    ensures text { line.new ≡ line.old ++ head end cycles instructions boundary }
    ensures len { length line.new ≤ length line.old + 166 }
{
    line.text("end ");
    end_name(line, end);
    add_counts(line, cycles, instructions, boundary);
}

/// At a stack limit the last boundary's cycles, if there was one.
fn cycles_of(end: End, cycles: u64, boundary: Option<Boundary>) -> u64
    ensures { result ≡ cycles_of end cycles boundary }
{
    match (end, boundary) {
        (End::StackLimit, Some(boundary)) => boundary.cycles,
        _ => cycles,
    }
}

/// Appends the first three lines of a clocked run's report.
pub fn clocked_head(line: &mut Line, end: End, counts: &Counts)
    requires { length line.old + 166 ≤ 512 }
    ensures text { line.new ≡ line.old ++ clocked_head end counts.now }
    ensures len { length line.new ≤ length line.old + 166 }
{
    let cycles = cycles_of(end, counts.cycles, counts.boundary);
    head(line, end, cycles, counts.instructions, counts.boundary);
}

/// The four lines of a clocked run's report.
pub fn clocked_report(end: End, counts: &Counts, registers: &Registers) -> Line
    requires { registers.now.mpc < 512 }
    ensures { result ≡ report end counts.now registers.now }
{
    let mut line = Line::new();
    clocked_head(&mut line, end, counts);
    print_state(registers, &mut line);
    line.text("\n");
    line
}

/// The four lines of a clocked run's report, where it has ended, or where a debugger left it.
pub fn left_report(end: Option<End>, counts: &Counts, registers: &Registers) -> Line
    requires { registers.now.mpc < 512 }
    ensures { result ≡ left_report end counts.now registers.now }
{
    match end {
        Some(end) => clocked_report(end, counts, registers),
        None => quit_report(counts, registers),
    }
}

/// The report of a run that a debugger left before its end.
fn quit_report(counts: &Counts, registers: &Registers) -> Line
    requires { registers.now.mpc < 512 }
    ensures { result ≡ quit_report counts.now registers.now }
{
    let mut line = Line::of("end quit");
    add_counts(
        &mut line,
        counts.cycles,
        counts.instructions,
        counts.boundary,
    );
    print_state(registers, &mut line);
    line.text("\n");
    line
}

/// The three lines of the plain machine's report.
pub fn plain_report(run: &PlainReport) -> Line
    ensures { result ≡ plain_head run.now }
{
    let boundary = Boundary {
        cycles: run.boundary,
        at: run.address,
        sp: run.sp,
        lv: run.lv,
    };
    let mut line = Line::new();
    head(
        &mut line,
        clocked_end(run.end),
        run.cycles,
        run.instructions,
        Some(boundary),
    );
    line
}
