//! The files of the system, read up to the greatest size.

ghost use Rattle.std.specs.Prelude.{◌≡◌, None};

use super::answers::{counted, file_read, file_written};
use crate::files::{FileError, Files, MOST_BYTES};
use std::alloc::Global;
use std::fs::File;
use std::io::Read;
use std::{fs, io, rt};

/// The files of a runtime.
#[derive(Drop)]
pub struct StdFiles<R> {
    rt: R,
    faults: u64,
}

impl<R> StdFiles<R> {
    ghost use Rattle.mic_base.specs.Standard.{runtime_faults, runtime_of};

    pub fn new(rt: R) -> StdFiles<R>
        ensures runtime { runtime_of result ≡ rt }
        ensures faults { runtime_faults result ≡ 0 }
    {
        StdFiles { rt, faults: 0 }
    }
}

impl<R: rt::Files> Files for StdFiles<R> {
    ghost contents = { λ s. None };

    ghost faults = { λ s. s.faults };

    fn read_file(&mut self, alloc: Global, name: &str) -> Result<Vec<u8>, FileError> {
        let answer = file_read(read_front(&self.rt, alloc, name));
        counted(answer, &mut self.faults)
    }

    // No clause says what a file of the system holds: that this one then holds these bytes is tested (`real_files_are_files`).
    fn write_file(&mut self, _alloc: Global, name: &str, bytes: &[u8]) -> Result<(), FileError> {
        let answer = file_written(fs::write(&self.rt, name, bytes));
        counted(answer, &mut self.faults)
    }
}

/// A file's bytes, up to one byte beyond the limit.
fn read_front(rt: &impl rt::Files, alloc: Global, name: &str) -> io::Result<Vec<u8>> {
    let mut bytes = Vec::new(alloc);
    File::open(rt, name)?
        .take(MOST_BYTES as u64 + 1)
        .read_to_end(&mut bytes)?;
    Ok(bytes)
}
