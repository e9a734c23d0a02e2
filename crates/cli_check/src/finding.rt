//! What is printed of a microprogram that is not shown to interpret IJVM.

ghost use Rattle.std.specs.Prelude.{◌≡◌, ◌++◌, ℕ, List, codes, IfOk};
ghost use Rattle.cli_check.specs.CheckEnds.{IsNotShownText};

use crate::brief::Brief;
use crate::difference::put_difference;
use crate::labels::put_path;
use crate::written::put_word;
use ijvm_instr::{INSTRUCTIONS, name};
use mal_parser::MalProgram;
use mic1_checker::{Asked, Finding, Instruction, NotShown, Shape};
use mic1_cycles::{Answer, Question};
use micro_terms::Nodes;
use std::alloc::{AllocError, Global};
use store_placement::Placement;

const NOT_SHOWN: &[u8] = b"not shown: ";

/// The row of the boot.
const BOOT: u32 = 24;

/// The most bytes of a word in an answer, and those of a line after which no more answers are named.
const WORD: u16 = 40;

const ANSWERS: usize = 80;

/// The name of a row of IJVM's table.
fn row_name(row: u32) -> &'static str {
    match INSTRUCTIONS.get(row as usize) {
        Some(instr) if row < BOOT => name(*instr),
        _ => "boot",
    }
}

fn put_instruction(text: &mut Brief, n: Instruction) {
    text.put(row_name(n.row));
    // the second opcode of IOR
    if n.opcode == 0x80 {
        text.put(" (opcode 80)");
    }
}

fn put_asked(text: &mut Brief, asked: Asked) {
    match asked {
        Asked::Boot => text.put("boot"),
        Asked::Instruction(n) => put_instruction(text, n),
        Asked::Halt => text.put("HALT"),
        Asked::Err => text.put("ERR"),
    }
}

/// Appends what is under way at the boundary, if anything is.
fn put_shape(text: &mut Brief, shape: Shape) {
    match (shape.byte, shape.word) {
        (false, false) => {}
        (false, true) => text.put(" with a word still on its way"),
        (true, false) => text.put(" with the opcode still on its way"),
        (true, true) => text.put(" with the opcode and a word still on their way"),
    }
}

/// Whether an address is as in most runs: in memory, and not the console.
fn is_usual(answer: &Answer) -> bool {
    match answer.question {
        Question::IsNegative | Question::IsZero => false,
        Question::IsInMemory | Question::IsFetchable | Question::IsStackSide => answer.is,
        Question::IsConsole => !answer.is,
    }
}

fn put_answer(
    text: &mut Brief,
    answer: &Answer,
    nodes: &Nodes,
    alloc: Global,
) -> Result<(), AllocError> {
    let (before, after) = match answer.question {
        Question::IsNegative if answer.is => ("N(", ")"),
        Question::IsNegative => ("not N(", ")"),
        Question::IsZero if answer.is => ("Z(", ")"),
        Question::IsZero => ("not Z(", ")"),
        Question::IsInMemory => ("", " is not in memory"),
        Question::IsConsole => ("", " is the console"),
        Question::IsStackSide => ("", " is not below 0x80000000"),
        Question::IsFetchable => ("byte ", " is not in memory"),
    };
    text.put(before);
    put_word(text, nodes, answer.number, WORD, alloc)?;
    text.put(after);
    Ok(())
}

/// Appends under which answers the path goes, but for the usual ones; of very many the first.
fn put_answers(
    text: &mut Brief,
    answers: &[Answer],
    nodes: &Nodes,
    alloc: Global,
) -> Result<(), AllocError> {
    let mut before = " where ";
    for answer in answers {
        if text.is_longer(ANSWERS) {
            text.put(", ..");
            break;
        }
        if !is_usual(answer) {
            text.put(before);
            put_answer(text, answer, nodes, alloc)?;
            before = ", ";
        }
    }
    Ok(())
}

/// The line of the first difference.
fn finding_line(
    finding: &Finding,
    program: &MalProgram,
    placement: &Placement,
    alloc: Global,
) -> Result<Brief, AllocError> {
    let mut text = Brief::new();
    put_asked(&mut text, finding.asked);
    put_shape(&mut text, finding.shape);
    put_answers(&mut text, &finding.answers, &finding.nodes, alloc)?;
    text.put(": ");
    put_difference(&mut text, &finding.difference, &finding.nodes, alloc)?;
    put_path(&mut text, program, placement, &finding.addresses);
    Ok(text)
}

/// Adds a line that names these, where there are any.
fn push_names(text: &mut Vec<u8>, what: &str, all: &[Asked]) -> Result<(), AllocError> {
    if all.is_empty() {
        return Ok(());
    }
    let mut line = Brief::new();
    line.put(what);
    for (place, asked) in all.iter().enumerate() {
        line.put(if place == 0 { " " } else { ", " });
        put_asked(&mut line, *asked);
    }
    push_line(text, &line)
}

fn push_line(text: &mut Vec<u8>, line: &Brief) -> Result<(), AllocError> {
    text.extend_from_slice(line.bytes())?;
    text.push(b'\n')?;
    Ok(())
}

/// The line of what takes cycles that do not follow from those of the microprogram that ships.
fn costs_line(asked: Asked) -> Brief {
    let mut line = Brief::new();
    put_asked(&mut line, asked);
    line.put(": its cycles do not follow from those that ship");
    line
}

/// What follows the first words.
fn rest_of(
    reason: &NotShown,
    program: &MalProgram,
    placement: &Placement,
    alloc: Global,
) -> Result<Vec<u8>, AllocError> {
    let mut text = Vec::new(alloc);
    match reason {
        NotShown::Differs {
            first,
            others,
            too_much,
        } => {
            let line = finding_line(first, program, placement, alloc)?;
            push_line(&mut text, &line)?;
            push_names(&mut text, "not shown either:", others)?;
            push_names(&mut text, "too much is asked:", too_much)?;
        }
        NotShown::Costs { asked } => push_line(&mut text, &costs_line(*asked))?,
    }
    Ok(text)
}

/// What is not shown of a microprogram: the first difference, and then what else.
pub(crate) fn not_shown_text(
    alloc: Global,
    reason: &NotShown,
    program: &MalProgram,
    placement: &Placement,
) -> Result<Vec<u8>, AllocError>
    ensures { IfOk result (λ text. IsNotShownText text.items) }
{
    let rest = rest_of(reason, program, placement, alloc)?;
    let mut text = Vec::from_slice(alloc, NOT_SHOWN)?;
    text.extend_from_slice(&rest)?;
    Ok(text)
}
