//! Files by their names: the trait that the system's files and files in memory have.

ghost use Rattle.std.specs.Prelude.{◌≡◌, ℕ, Option};
ghost use Rattle.mic_base.specs.Files.{Contents, HasFileCause, Reads, Writes};

use std::alloc::Global;
use thiserror::Error;

/// The most bytes of a file that is read.
pub const MOST_BYTES: usize = 1_048_576;

/// Why a file was not read or written.
#[derive(Clone, Copy, Debug, PartialEq, Eq, Error)]
pub enum FileError {
    /// The file is missing, or could not be reached.
    #[error("file failed")]
    Failed,
    /// The file has more than `MOST_BYTES`.
    #[error("file too long")]
    TooLong,
    #[error("out of memory")]
    OutOfMemory,
}

/// Files by their names.
pub trait Files {
    /// What each file contains, where that is known.
    ghost contents: { Self → Option Contents };

    /// How often they have failed.
    ghost faults: { Self → ℕ };

    /// The contents of a file of at most `MOST_BYTES`.
    fn read_file(&mut self, alloc: Global, name: &str) -> Result<Vec<u8>, FileError>
        ensures same { contents self.new ≡ contents self.old }
        ensures reads { Reads (contents self.old) name.now result }
        ensures cause { HasFileCause (faults self.old) (faults self.new) result };

    /// Makes the bytes the file's contents. If it fails, they may be anything.
    fn write_file(&mut self, alloc: Global, name: &str, bytes: &[u8]) -> Result<(), FileError>
        ensures writes { Writes (contents self.old) (contents self.new) name.now bytes.now result }
        ensures cause { HasFileCause (faults self.old) (faults self.new) result };
}
