//! Files in memory, whose calls fail where a test asks for it.

ghost use Rattle.std.specs.Prelude.{◌≡◌, ◌<◌, ◌↔◌, List, ℕ, Option, Some, option_map, length, IfOk, OnOk, OnErr, IsErrOf, Contains, ◌≢◌};
ghost use Rattle.mic_base.specs.Files.{file_in, HasFileCause, KeepsAll, KeepsOthers, most_bytes, Reads, Writes};
ghost use Rattle.mic_base.specs.Numbering.{next_number};

use super::calls::Calls;
use crate::files::{FileError, Files, MOST_BYTES};
use std::alloc::{AllocError, Global};
use std::collections::BTreeMap;

/// Files in memory. The calls of `read_file` and `write_file` that are numbered in `failing`, from 1, fail, and so do
/// reads of a missing file.
#[derive(Drop)]
pub struct MemFiles {
    alloc: Global,
    files: BTreeMap<String, Vec<u8>>,
    written: Vec<String>,
    calls: Calls,
}

impl MemFiles {
    ghost use Rattle.mic_base.specs.Memory.{IsUncounted, files_contents, files_failing, files_faults, files_number};

    pub fn new(alloc: Global, failing: Vec<u64>) -> MemFiles
        ensures none { (name : List ℕ) → file_in (files_contents result) name ≡ None }
        ensures failing { files_failing result ≡ failing.items }
        ensures number { files_number result ≡ 1 }
        ensures faults { files_faults result ≡ 0 }
    {
        MemFiles {
            alloc,
            files: BTreeMap::new(alloc),
            written: Vec::new(alloc),
            calls: Calls::new(failing),
        }
    }

    /// Makes the bytes the file's contents.
    pub fn add(&mut self, name: &str, bytes: &[u8]) -> Result<(), AllocError>
        ensures added { OnOk result (file_in (files_contents self.new) name.now ≡ Some bytes.now) }
        ensures others { KeepsOthers (files_contents self.old) name.now (files_contents self.new) }
        ensures err { OnErr result (KeepsAll (files_contents self.old) (files_contents self.new)) }
        ensures uncounted { IsUncounted self.old self.new }
    {
        let name = String::from_str(self.alloc, name)?;
        let bytes = Vec::from_slice(self.alloc, bytes)?;
        self.files.insert(name, bytes)?;
        Ok(())
    }

    /// The file's contents, or none where there is no such file.
    pub fn find(&self, name: &str) -> Option<&[u8]>
        ensures { option_map (λ bytes. bytes.now) result ≡ file_in (files_contents self.now) name.now }
    {
        match self.files.get(name) {
            Some(bytes) => Some(bytes.as_slice()),
            None => None,
        }
    }

    /// The names of the files that were written, also of those whose writes failed.
    pub fn written(&self) -> &[String] {
        &self.written
    }
}

/// Adds a name, if it is not there.
fn note(alloc: Global, names: &mut Vec<String>, name: &str) -> Result<(), AllocError> {
    if !names.iter().any(|known| known.as_str() == name) {
        names.push(String::from_str(alloc, name)?)?;
    }
    Ok(())
}

impl Files for MemFiles {
    ghost use Rattle.mic_base.specs.Memory.{FailsToRead, files_contents, files_failing, files_faults, files_number};

    ghost contents = { λ s. Some (files_contents s) };

    ghost faults = { λ s. s.calls.faults };

    fn read_file(&mut self, alloc: Global, name: &str) -> Result<Vec<u8>, FileError>
        ensures same { files_contents self.new ≡ files_contents self.old }
        ensures reads { Reads (Some (files_contents self.old)) name.now result }
        ensures cause { HasFileCause (files_faults self.old) (files_faults self.new) result }

        ensures failing { IsErrOf result FileError.Failed ↔ FailsToRead self.old name.now }
        ensures number { files_number self.new ≡ next_number (files_number self.old) }
        ensures kept { files_failing self.new ≡ files_failing self.old }
    {
        if self.calls.is_failing() {
            self.calls.fail();
            return Err(FileError::Failed);
        }
        match self.find(name) {
            Some(bytes) => copied(alloc, bytes),
            None => {
                self.calls.fail();
                Err(FileError::Failed)
            }
        }
    }

    fn write_file(&mut self, _alloc: Global, name: &str, bytes: &[u8]) -> Result<(), FileError>
        ensures writes { Writes (Some (files_contents self.old)) (Some (files_contents self.new)) name.now bytes.now result }
        ensures cause { HasFileCause (files_faults self.old) (files_faults self.new) result }

        ensures failing { IsErrOf result FileError.Failed ↔ Contains (files_failing self.old) (files_number self.old) }
        ensures err { OnErr result (KeepsAll (files_contents self.old) (files_contents self.new)) }
        ensures number { files_number self.new ≡ next_number (files_number self.old) }
        ensures kept { files_failing self.new ≡ files_failing self.old }
    {
        let noted = note(self.alloc, &mut self.written, name);
        if self.calls.is_failing() {
            self.calls.fail();
            return Err(FileError::Failed);
        }
        if noted.is_err() {
            return Err(FileError::OutOfMemory);
        }
        match self.add(name, bytes) {
            Ok(()) => Ok(()),
            Err(_) => Err(FileError::OutOfMemory),
        }
    }
}

/// A copy of a file's bytes, if they are not too many.
fn copied(alloc: Global, bytes: &[u8]) -> Result<Vec<u8>, FileError>
    ensures whole { IfOk result (λ copy. copy.items ≡ bytes.now) }
    ensures long { IsErrOf result FileError.TooLong ↔ (most_bytes < length bytes.now) }
    ensures never { result ≢ Err FileError.Failed }
{
    if bytes.len() > MOST_BYTES {
        return Err(FileError::TooLong);
    }
    match Vec::from_slice(alloc, bytes) {
        Ok(copy) => Ok(copy),
        Err(_) => Err(FileError::OutOfMemory),
    }
}
