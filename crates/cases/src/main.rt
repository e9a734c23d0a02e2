//! Runs the cases that `index.txt` names: each is a call of `mic` or `mic-check` in memory, and what must come of it.
//! `cases show FILE` prints a case with what comes of it now.
#![tactic(auto)]

mod answer;
mod case;
mod content;
mod difference;
mod hex;
mod index;
mod part;
mod reading;
mod shown;

use answer::answer_of;
use case::{Case, Refusal};
use difference::difference;
use index::{not_named, read_index};
use reading::read_case;
use shown::shown;
use std::alloc::{AllocError, Global};
use std::process::ExitCode;
use std::{env, fs, io};

/// A case that fails: in one line why, and the texts that differ.
#[derive(Drop)]
struct Failure {
    why: String,
    texts: String,
}

/// The line that is no line of a case, and why.
fn refused(alloc: Global, line: u64, refusal: Refusal) -> Result<String, AllocError> {
    let reason = refusal.0;
    format!(in alloc; "line {line}: {reason}")
}

/// Why the case of this file fails, if it does.
fn failure_of(rt: &HostRuntime, name: &str) -> io::Result<Option<Failure>> {
    let alloc = rt.alloc();
    let why = match fs::read_to_string(rt, name) {
        Err(_) => String::from_str(alloc, "cannot be read")?,
        Ok(text) => match read_case(rt, &text) {
            Ok(case) => return Ok(difference_of(alloc, &case)?),
            Err((line, refusal)) => refused(alloc, line, refusal)?,
        },
    };
    Ok(Some(Failure {
        why,
        texts: String::new(alloc),
    }))
}

/// What comes of the case's call in place of what must, if it differs.
fn difference_of(alloc: Global, case: &Case) -> Result<Option<Failure>, AllocError> {
    let answer = answer_of(alloc, case)?;
    let Some(why) = difference(alloc, &answer, &case.wanted)? else {
        return Ok(None);
    };
    let is = shown(alloc, &answer)?;
    let wanted = shown(alloc, &case.wanted)?;
    let texts = format!(in alloc; "it gives\n\n{is}\nand must give\n\n{wanted}\n")?;
    Ok(Some(Failure { why, texts }))
}

/// Prints on standard error and on standard output why a case fails.
fn report(rt: &HostRuntime, name: &str, why: &str) -> io::Result<()> {
    eprintln!(rt; "{name}: {why}")?;
    println!(rt; "{name}: {why}")
}

/// How many of the cases fail. Of each it prints why, and the texts that differ.
fn run_cases(rt: &HostRuntime, names: &[String]) -> io::Result<u64> {
    let mut failed: u64 = 0;
    for name in names {
        if let Some(failure) = failure_of(rt, name)? {
            report(rt, name, &failure.why)?;
            rt.println(failure.texts.as_str())?;
            failed = failed.saturating_add(1);
        }
    }
    Ok(failed)
}

/// Runs all cases, and prints how many there are and how many fail.
fn run_all(rt: &HostRuntime) -> io::Result<ExitCode> {
    let index = fs::read_to_string(rt, "index.txt")?;
    let names = read_index(rt.alloc(), &index)?;
    let mut failed = run_cases(rt, &names)?;
    for name in &not_named(rt, &names)? {
        report(rt, name, "is not in index.txt")?;
        failed = failed.saturating_add(1);
    }
    let count = names.len();
    println!(rt; "{count} cases, {failed} failed")?;
    Ok(ExitCode::from(u8::from(failed > 0)))
}

/// Prints a case: its words and what lies before the call as they stand, and what comes of it now.
fn show(rt: &HostRuntime, name: &str) -> io::Result<ExitCode> {
    let text = fs::read_to_string(rt, name)?;
    match read_case(rt, &text) {
        Err((line, refusal)) => {
            let why = refused(rt.alloc(), line, refusal)?;
            eprintln!(rt; "{name}: {why}")?;
            Ok(ExitCode::from(1))
        }
        Ok(case) => {
            let answer = answer_of(rt.alloc(), &case)?;
            let (inputs, outputs) = (&case.inputs, shown(rt.alloc(), &answer)?);
            print!(rt; "{inputs}{outputs}")?;
            Ok(ExitCode::from(0))
        }
    }
}

fn main(rt: HostRuntime) -> io::Result<ExitCode> {
    let mut words = env::args(&rt)?.skip(1);
    let Some(word) = words.next() else {
        return run_all(&rt);
    };
    match words.next() {
        Some(name) if word.as_str() == "show" => show(&rt, &name),
        _ => {
            eprintln!(rt; "usage: cases [show FILE]")?;
            Ok(ExitCode::from(64))
        }
    }
}
