//! A word of a placed microprogram by its label and its text, and an instruction of an image by its text.

ghost use Rattle.std.specs.Prelude.{◌≡◌, ◌≤◌, ◌<◌, ◌+◌, ◌++◌, codes, length};
ghost use Rattle.cli_watchers.specs.Common.{parts_text, Places, demands_of};
ghost use Rattle.cli_watchers.specs.Naming.{AddsWord, IsInstruction, IsReached, default_text, label_text, labelled_text};

use ijvm_instr::{Instr, decode_at, print_instr};
use ijvm_verifier::{Kind, VerifiedImage};
use mal_parser::{MalProgram, print_fallback, print_statement};
use mic_base::Line;
use store_placement::Placement;

/// Appends the label of a statement, or a dash where it has none.
fn print_label(program: &MalProgram, s: u16, line: &mut Line)
    requires below { s < length program.now.statements }
    requires room { length line.old + 64 ≤ 512 }
    ensures text { line.new ≡ line.old ++ label_text program.now s }
    ensures len { length line.new ≤ length line.old + 64 }
{
    match program.statement(s).label {
        Some(label) => line.text(label.text()),
        None => line.text("-"),
    }
}

/// Appends what unused words hold.
fn print_default(program: &MalProgram, line: &mut Line)
    requires { length line.old + 256 ≤ 512 }
    ensures text { line.new ≡ line.old ++ default_text program.now }
    ensures len { length line.new ≤ length line.old + 256 }
{
    if program.fallback().is_some() {
        print_fallback(program, line);
    } else {
        line.text("goto 0x0fe");
    }
}

/// Appends a statement's label, and after a space its parts, or `stall` in place of them.
fn print_placed_word(program: &MalProgram, s: u16, stalled: bool, line: &mut Line)
    requires below { s < length program.now.statements }
    requires room { length line.old + 321 ≤ 512 }
    ensures text { line.new ≡ line.old ++ labelled_text stalled (label_text program.now s) (parts_text program.now s) }
    ensures len { length line.new ≤ length line.old + 321 }
{
    print_label(program, s, line);
    if stalled {
        line.text(" stall");
    } else {
        line.text(" ");
        print_statement(program, s, line);
    }
}

/// Appends the label of an unused word, and after a space what it holds, or `stall` in place of that.
fn print_unused_word(program: &MalProgram, stalled: bool, line: &mut Line)
    requires { length line.old + 321 ≤ 512 }
    ensures text { line.new ≡ line.old ++ labelled_text stalled (codes ".default") (default_text program.now) }
    ensures len { length line.new ≤ length line.old + 321 }
{
    line.text(".default");
    if stalled {
        line.text(" stall");
    } else {
        line.text(" ");
        print_default(program, line);
    }
}

/// Appends the label of the word at an address, and after a space its text, or `stall` in place of it.
#[tactic(auto, using(crate::proofs::Placed::placed_count))]
pub fn print_word(
    program: &MalProgram,
    placement: &Placement,
    mpc: u16,
    stalled: bool,
    line: &mut Line,
)
    requires placed { Places (demands_of program.now) placement.now }
    requires room { length line.old + 321 ≤ 512 }
    ensures text { AddsWord program.now placement.now mpc stalled line.old line.new }
    ensures len { length line.new ≤ length line.old + 321 }
{
    match placement.statement_at(mpc) {
        Some(s) => print_placed_word(program, s, stalled, line),
        None => print_unused_word(program, stalled, line),
    }
}

/// The reached instruction that begins at an address, if one does.
pub fn reached_at(image: &VerifiedImage, at: u32) -> Option<Instr>
    ensures { IsReached image.now.image at result }
{
    match image.kind_at(at) {
        Kind::Start => match decode_at(image.image().text(), at) {
            Some(instr) => Some(instr),
            None => unreachable!(),
        },
        _ => None,
    }
}

/// The text of the reached instruction that begins at an address, or `?` where none does.
pub fn instruction_text(image: &VerifiedImage, at: u32) -> Line
    ensures { IsInstruction image.now.image at result }
{
    let mut line = Line::new();
    match reached_at(image, at) {
        Some(instr) => print_instr(instr, at, &mut line),
        None => line.text("?"),
    }
    line
}
