//! A case is read from its text, whose lines begin its parts or hold their contents.
//!
//! ```text
//! # What is read is written.
//! mic reference echo.jas
//! file echo.jas = examples/echo.jas
//! console
//! | ab
//! out
//! | ab
//! err
//! | end halt
//! ```

use crate::case::{Case, CaseFile, Failing, Program, Refusal};
use crate::content::content_of;
use crate::part::Part;
use std::alloc::{AllocError, Global};
use std::fs;

/// A part as far as it is read: the name that it has, if it has one, and its contents.
#[derive(Drop)]
struct Section {
    part: Part,
    name: String,
    contents: Vec<u8>,
}

/// The case of a text, or the number of the line that is no line of a case, and why.
pub fn read_case(rt: &HostRuntime, text: &str) -> Result<Case, (u64, Refusal)> {
    let mut case = Case::new(rt.alloc());
    let mut section = Section {
        part: Part::Start,
        name: String::new(rt.alloc()),
        contents: Vec::new(rt.alloc()),
    };
    let mut number: u64 = 0;
    for line in text.lines() {
        number = number.saturating_add(1);
        match take_line(rt, &mut case, section, line) {
            Ok(next) => section = next,
            Err(refusal) => return Err((number, refusal)),
        }
    }
    if let Part::Start = section.part {
        return Err((number, Refusal("no line says how `mic` is called")));
    }
    match put(&mut case, section) {
        Ok(()) => Ok(case),
        Err(error) => Err((number, Refusal::from(error))),
    }
}

/// Takes a line, and returns the part that it belongs to.
fn take_line(
    rt: &HostRuntime,
    case: &mut Case,
    section: Section,
    line: &str,
) -> Result<Section, Refusal> {
    let section = section_after(rt, case, section, line)?;
    if !section.part.is_wanted() {
        case.inputs.push_str(line)?;
        case.inputs.push_str("\n")?;
    }
    Ok(section)
}

/// The part after this line, which holds contents, or begins the next part.
fn section_after(
    rt: &HostRuntime,
    case: &mut Case,
    mut section: Section,
    line: &str,
) -> Result<Section, Refusal> {
    if line.is_empty() || line.starts_with('#') {
        return Ok(section);
    }
    if let Some(bytes) = content_of(rt.alloc(), line)? {
        if !section.part.has_contents() {
            return Err(Refusal("contents of no part"));
        }
        section.contents.extend_from_slice(&bytes)?;
        return Ok(section);
    }
    let (head, rest) = line.split_once(' ').unwrap_or((line, ""));
    let Some(next) = Part::of(head) else {
        return Err(Refusal("no line of a case"));
    };
    if !section.part.may_precede(next) {
        return Err(Refusal("the part stands after a later one, or twice"));
    }
    put(case, section)?;
    begin(rt, case, next, head, rest)?;
    section_of(rt, next, line)
}

/// Puts what was read where it belongs.
fn put(case: &mut Case, section: Section) -> Result<(), AllocError> {
    let Section {
        part,
        name,
        contents: bytes,
    } = section;
    match part {
        Part::Start | Part::Call | Part::Fails | Part::Status => {}
        Part::File => case.files.push(CaseFile { name, bytes })?,
        Part::Console => case.console = bytes,
        Part::Out => case.wanted.out = bytes,
        Part::Err => case.wanted.err = bytes,
        Part::Left => case.wanted.left = bytes,
        Part::Written => case.wanted.written.push(CaseFile { name, bytes })?,
    }
    Ok(())
}

/// Takes the first word and what stands after it, of a part without contents.
fn begin(
    rt: &HostRuntime,
    case: &mut Case,
    part: Part,
    head: &str,
    rest: &str,
) -> Result<(), Refusal> {
    match part {
        Part::Call => {
            case.program = program_of(head);
            case.words = words_of(rt.alloc(), rest)?;
        }
        Part::Fails => fail(rt.alloc(), &mut case.failing, rest)?,
        Part::Status => case.wanted.status = status_of(rest)?,
        _ => {}
    }
    Ok(())
}

fn program_of(head: &str) -> Program {
    if head == "mic-check" {
        Program::MicCheck
    } else {
        Program::Mic
    }
}

/// The part that this line begins. `PART NAME` has its contents on lines of their own, and `PART NAME = PATH` begins with those of a file beside the cases.
fn section_of(rt: &HostRuntime, part: Part, line: &str) -> Result<Section, Refusal> {
    let mut contents = Vec::new(rt.alloc());
    let mut name = "";
    if part.has_contents() {
        let (front, path) = line.split_once(" = ").unwrap_or((line, ""));
        (_, name) = front.split_once(' ').unwrap_or((front, ""));
        if front.len() < line.len() {
            contents = file_at(rt, path)?;
        }
    }
    if !name.is_empty() && !part.has_name() {
        return Err(Refusal("contents stand on lines of their own"));
    }
    Ok(Section {
        part,
        name: String::from_str(rt.alloc(), name)?,
        contents,
    })
}

fn file_at(rt: &HostRuntime, path: &str) -> Result<Vec<u8>, Refusal> {
    match fs::read(rt, path) {
        Ok(bytes) => Ok(bytes),
        Err(_) => Err(Refusal("the file that it names cannot be read")),
    }
}

fn status_of(text: &str) -> Result<u8, Refusal> {
    match text.parse::<u8>() {
        Ok(status) => Ok(status),
        Err(_) => Err(Refusal("no status from 0 to 255")),
    }
}

/// `fails files 1 2`: these calls fail.
fn fail(alloc: Global, failing: &mut Failing, text: &str) -> Result<(), Refusal> {
    let (what, numbers) = text.split_once(' ').unwrap_or((text, ""));
    let calls = numbers_of(alloc, numbers)?;
    match what {
        "files" => failing.files.extend_from_slice(&calls)?,
        "console" => failing.console.extend_from_slice(&calls)?,
        "out" => failing.out.extend_from_slice(&calls)?,
        "err" => failing.err.extend_from_slice(&calls)?,
        _ => return Err(Refusal("files, console, out or err fails")),
    }
    Ok(())
}

fn numbers_of(alloc: Global, text: &str) -> Result<Vec<u64>, Refusal> {
    let mut numbers = Vec::new(alloc);
    for word in &words_of(alloc, text)? {
        match word.parse::<u32>() {
            Ok(number) => numbers.push(u64::from(number)).map_err(AllocError::from)?,
            Err(_) => return Err(Refusal("no number of a call")),
        }
    }
    Ok(numbers)
}

fn words_of(alloc: Global, text: &str) -> Result<Vec<String>, AllocError> {
    let mut words = Vec::new(alloc);
    for word in text.split(' ') {
        if !word.is_empty() {
            words.push(String::from_str(alloc, word)?)?;
        }
    }
    Ok(words)
}
