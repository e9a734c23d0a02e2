//! A case: a call of `mic` or `mic-check`, what lies before it, and what must come of it.

use std::alloc::{AllocError, Global};

/// Why a line is no line of a case.
#[derive(Clone, Copy, Drop)]
pub struct Refusal(pub &'static str);

impl From<AllocError> for Refusal {
    fn from(_error: AllocError) -> Refusal {
        Refusal("memory is wanting")
    }
}

/// A file by its name.
#[derive(Drop)]
pub struct CaseFile {
    pub name: String,
    pub bytes: Vec<u8>,
}

/// What comes of a call.
#[derive(Drop)]
pub struct Answer {
    pub status: u8,
    pub out: Vec<u8>,
    pub err: Vec<u8>,
    /// Console input that was not taken.
    pub left: Vec<u8>,
    /// The files that were written.
    pub written: Vec<CaseFile>,
}

impl Answer {
    pub fn new(alloc: Global) -> Answer {
        Answer {
            status: 0,
            out: Vec::new(alloc),
            err: Vec::new(alloc),
            left: Vec::new(alloc),
            written: Vec::new(alloc),
        }
    }
}

/// The numbers of the calls that fail, of each part of the outside.
#[derive(Drop)]
pub struct Failing {
    pub files: Vec<u64>,
    pub console: Vec<u64>,
    pub out: Vec<u64>,
    pub err: Vec<u64>,
}

/// The program that a case calls.
#[derive(Clone, Copy, Drop)]
pub enum Program {
    Mic,
    MicCheck,
}

#[derive(Drop)]
pub struct Case {
    /// The lines up to the first that says what must come of the call.
    pub inputs: String,
    pub program: Program,
    pub words: Vec<String>,
    pub files: Vec<CaseFile>,
    pub console: Vec<u8>,
    pub failing: Failing,
    pub wanted: Answer,
}

impl Case {
    pub fn new(alloc: Global) -> Case {
        Case {
            inputs: String::new(alloc),
            program: Program::Mic,
            words: Vec::new(alloc),
            files: Vec::new(alloc),
            console: Vec::new(alloc),
            failing: Failing {
                files: Vec::new(alloc),
                console: Vec::new(alloc),
                out: Vec::new(alloc),
                err: Vec::new(alloc),
            },
            wanted: Answer::new(alloc),
        }
    }
}
