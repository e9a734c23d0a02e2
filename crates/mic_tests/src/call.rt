//! A call of `mic` in memory.

use cli_call::mic_main;
use mic_base::{MemFiles, MemSink, MemSource};
use std::alloc::{AllocError, Global};

/// The most bytes that `out` and `err` take.
const ROOM: u32 = 100_000;

/// What comes of a call: its status, and what it prints on standard output and standard error.
#[derive(PartialEq, Eq, Drop)]
pub struct Answer {
    pub status: u8,
    pub out: Vec<u8>,
    pub err: Vec<u8>,
}

/// A program with its input.
#[derive(Clone, Copy)]
pub struct Job {
    pub program: &'static str,
    pub input: &'static str,
}

fn list_of(alloc: Global, words: &[&str]) -> Result<Vec<String>, AllocError> {
    let mut list = Vec::new(alloc);
    for word in words {
        list.push(String::from_str(alloc, word)?)?;
    }
    Ok(list)
}

/// The answer to these words; the program is the file `P`, and the microprogram the file `M`.
pub fn answer_to(
    alloc: Global,
    words: &[&str],
    job: Job,
    micro: &[u8],
) -> Result<Answer, AllocError> {
    let words = list_of(alloc, words)?;
    let mut files = MemFiles::new(alloc, Vec::new(alloc));
    files.add("P", job.program.as_bytes())?;
    files.add("M", micro)?;
    let input = Vec::from_slice(alloc, job.input.as_bytes())?;
    let mut console = MemSource::new(input, Vec::new(alloc));
    let mut out = MemSink::new(alloc, ROOM, Vec::new(alloc))?;
    let mut err = MemSink::new(alloc, ROOM, Vec::new(alloc))?;
    let status = mic_main(alloc, &words, &mut files, &mut console, &mut out, &mut err);
    Ok(Answer {
        status: status.0,
        out: Vec::from_slice(alloc, out.bytes())?,
        err: Vec::from_slice(alloc, err.bytes())?,
    })
}
