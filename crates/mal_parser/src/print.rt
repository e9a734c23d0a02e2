//! From a program to its canonical text.

ghost use Rattle.std.specs.Prelude.{◌≡◌, ◌≤◌, ◌<◌, ◌+◌, ◌++◌, ◌∷◌, [], length, IsSome, IsTrue, Some, IfOk, OnOk, pos};
ghost use Rattle.mal_parser.specs.Common.{is_next, is_valid, Token};
ghost use Rattle.mal_parser.specs.Program.{HasTargets, IsLabelled, IsMalProgram};
ghost use Rattle.mal_parser.specs.ProgramText.{by_addresses, by_label, by_labels, canonical_text, fallback_text, parts_text, placed_text, relined, statement_text, text_of, default_lines, fix_lines, fix_lines_at, statement_lines};
ghost use Rattle.mal_parser.specs.Text.{SpellsProgram};

use crate::laws::canonical_text_spells_its_program;
use crate::program::MalProgram;
use crate::statement::MalNext;
use mal_line::Next;
use mal_print::print_tokens;
use mal_tokens::Token;
use mic_base::Line;
use micro_word::{Machine, Placed, PlacedNext};
use std::alloc::{AllocError, Global};

fn by_label(program: &MalProgram, s: u16) -> Token
    requires { IsLabelled program.now.statements s }
    ensures { result ≡ by_label program.now.statements s }
{
    Token::Name(program.statement(s).label.unwrap())
}

fn by_labels(program: &MalProgram, next: MalNext) -> Next<Token>
    requires { HasTargets program.now.statements next }
    ensures { result ≡ by_labels program.now.statements next }
{
    match next {
        Next::Following => Next::Following,
        Next::Goto(to) => Next::Goto(by_label(program, to)),
        Next::Dispatch { high } => Next::Dispatch { high },
        Next::Branch { test, yes, no } => Next::Branch {
            test,
            yes: by_label(program, yes),
            no: by_label(program, no),
        },
    }
}

fn address(to: u16) -> Token
    ensures { result ≡ Token.Number (pos to) }
{
    Token::Number(i64::from(to))
}

fn by_addresses(next: PlacedNext) -> Next<Token>
    requires { IsTrue (is_next next) }
    ensures { result ≡ by_addresses next }
{
    match next {
        PlacedNext::Goto(to) => Next::Goto(address(to)),
        PlacedNext::Dispatch { high } => Next::Dispatch { high },
        PlacedNext::Branch { test, no } => Next::Branch {
            test,
            yes: address(no + 256),
            no: address(no),
        },
    }
}

/// Appends the canonical parts of a statement without its label, `;` where it has no parts.
pub fn print_statement(program: &MalProgram, s: u16, line: &mut Line)
    requires below { s < length program.now.statements }
    requires room { length line.old + 256 ≤ 512 }
    ensures text { line.new ≡ line.old ++ parts_text program.now s }
    ensures len { length line.new ≤ length line.old + 256 }
{
    let statement = program.statement(s);
    let next = by_labels(program, statement.next);
    print_tokens(
        &mal_print::lone(program.machine(), &statement.part, &next),
        line,
    );
}

/// Appends the canonical line of a statement: its label and its parts.
pub fn print_labelled(program: &MalProgram, s: u16, line: &mut Line)
    requires below { s < length program.now.statements }
    requires room { length line.old + 321 ≤ 512 }
    ensures { line.new ≡ line.old ++ statement_text program.now s }
{
    let statement = program.statement(s);
    let next = by_labels(program, statement.next);
    let label = statement.label;
    print_tokens(
        &mal_print::statement(program.machine(), label, &statement.part, &next),
        line,
    );
}

/// Appends the canonical parts of what unused words hold.
pub fn print_fallback(program: &MalProgram, line: &mut Line)
    requires some { IsSome program.now.fallback }
    requires room { length line.old + 256 ≤ 512 }
    ensures text { line.new ≡ line.old ++ fallback_text program.now }
    ensures len { length line.new ≤ length line.old + 256 }
{
    if let Some(statement) = program.fallback() {
        let next = by_labels(program, statement.next);
        print_tokens(
            &mal_print::parts_of(program.machine(), &statement.part, &next),
            line,
        );
    }
}

/// Appends the canonical parts of a placed statement, with its targets as `0xAAA`.
#[tactic(auto, using(crate::proofs::Printing::next_valid))]
pub fn print_placed(placed: &Placed, machine: Machine, line: &mut Line)
    requires valid { IsTrue (is_valid machine placed.now) }
    requires room { length line.old + 256 ≤ 512 }
    ensures { line.new ≡ line.old ++ placed_text machine placed.now }
{
    let next = by_addresses(placed.next);
    print_tokens(&mal_print::parts_of(machine, &placed.part, &next), line);
}

fn end_line(line: &Line, text: &mut Vec<u8>) -> Result<(), AllocError>
    ensures { OnOk result (text.new.items ≡ text.old.items ++ (line.now ++ 10 ∷ [])) }
{
    text.extend_from_slice(line.bytes())?;
    text.push(b'\n')?;
    Ok(())
}

fn add_fix(program: &MalProgram, s: u16, text: &mut Vec<u8>) -> Result<(), AllocError>
    requires { s < length program.now.statements }
    ensures { OnOk result (text.new.items ≡ text.old.items ++ text_of (fix_lines_at program.now s)) }
{
    let statement = program.statement(s);
    let Some(address) = statement.fixed else {
        return Ok(());
    };
    let Some(label) = statement.label else {
        return Ok(());
    };
    let mut line = Line::new();
    print_tokens(&mal_print::fix(label, address), &mut line);
    end_line(&line, text)
}

fn add_fixes(program: &MalProgram, text: &mut Vec<u8>) -> Result<(), AllocError>
    ensures { OnOk result (text.new.items ≡ text.old.items ++ text_of (fix_lines program.now)) }
{
    for s in 0..program.len() {
        add_fix(program, s, text)?;
    }
    Ok(())
}

fn add_default(program: &MalProgram, text: &mut Vec<u8>) -> Result<(), AllocError>
    ensures { OnOk result (text.new.items ≡ text.old.items ++ text_of (default_lines program.now)) }
{
    if let Some(statement) = program.fallback() {
        let next = by_labels(program, statement.next);
        let mut line = Line::new();
        print_tokens(
            &mal_print::fallback(program.machine(), &statement.part, &next),
            &mut line,
        );
        end_line(&line, text)?;
    }
    Ok(())
}

fn add_statements(program: &MalProgram, text: &mut Vec<u8>) -> Result<(), AllocError>
    ensures text { OnOk result (text.new.items ≡ text.old.items ++ text_of (statement_lines program.now)) }
    ensures program { IsMalProgram program.now }
{
    for s in 0..program.len() {
        let mut line = Line::new();
        print_labelled(program, s, &mut line);
        end_line(&line, text)?;
    }
    Ok(())
}

/// The canonical text of a program, which spells that program, with the lines of that text as its line numbers.
pub fn print_mal(alloc: Global, program: &MalProgram) -> Result<Vec<u8>, AllocError>
    ensures text { IfOk result (λ text. text.items ≡ canonical_text program.now) }
    ensures spells { IfOk result (λ text. SpellsProgram program.now.machine text.items (relined program.now)) }
{
    canonical_text_spells_its_program();
    let mut text = Vec::new(alloc);
    add_fixes(program, &mut text)?;
    add_default(program, &mut text)?;
    add_statements(program, &mut text)?;
    Ok(text)
}
