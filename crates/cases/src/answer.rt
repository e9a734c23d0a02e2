//! A case's call is made, with files, console and streams in memory.

use crate::case::{Answer, Case, CaseFile, Program};
use cli_call::mic_main;
use cli_check::check_main;
use cli_outside::Status;
use mic_base::{MemFiles, MemSink, MemSource};
use std::alloc::{AllocError, Global};

/// The most bytes that `out` and `err` take.
const ROOM: u32 = 1_200_000;

/// Makes the call of the case's program.
fn call(
    alloc: Global,
    case: &Case,
    files: &mut MemFiles,
    console: &mut MemSource,
    out: &mut MemSink,
    err: &mut MemSink,
) -> Status {
    match case.program {
        Program::Mic => mic_main(alloc, &case.words, files, console, out, err),
        Program::MicCheck => check_main(alloc, &case.words, files, console, out, err),
    }
}

/// The files that were written, as they are now.
fn written_in(alloc: Global, files: &MemFiles) -> Result<Vec<CaseFile>, AllocError> {
    let mut written = Vec::new(alloc);
    for name in files.written() {
        if let Some(bytes) = files.find(name) {
            written.push(CaseFile {
                name: name.clone()?,
                bytes: Vec::from_slice(alloc, bytes)?,
            })?;
        }
    }
    Ok(written)
}

/// What comes of the case's call.
pub fn answer_of(alloc: Global, case: &Case) -> Result<Answer, AllocError> {
    let failing = &case.failing;
    let mut files = MemFiles::new(alloc, Vec::from_slice(alloc, &failing.files)?);
    for file in &case.files {
        files.add(&file.name, &file.bytes)?;
    }
    let mut console = MemSource::new(
        Vec::from_slice(alloc, &case.console)?,
        Vec::from_slice(alloc, &failing.console)?,
    );
    let mut out = MemSink::new(alloc, ROOM, Vec::from_slice(alloc, &failing.out)?)?;
    let mut err = MemSink::new(alloc, ROOM, Vec::from_slice(alloc, &failing.err)?)?;
    let status = call(alloc, case, &mut files, &mut console, &mut out, &mut err);
    Ok(Answer {
        status: status.0,
        out: Vec::from_slice(alloc, out.bytes())?,
        err: Vec::from_slice(alloc, err.bytes())?,
        left: Vec::from_slice(alloc, console.left())?,
        written: written_in(alloc, &files)?,
    })
}
