//! What each answer of the runtime becomes, and which of them are counted as faults.

ghost use Rattle.std.specs.Prelude.{◌≡◌, ◌≢◌, ◌≤◌, ◌<◌, ◌↔◌, length, Ok, Err, IsOk, IsErr, IfOk, IfErr};
ghost use Rattle.std.specs.IoError.{error_kind};
ghost use Rattle.mic_base.specs.Causes.{HasCause};
ghost use Rattle.mic_base.specs.Files.{HasFileCause, most_bytes};

use crate::files::{FileError, MOST_BYTES};
use crate::sink::SinkFailed;
use crate::source::SourceFailed;
use std::io;
use std::io::ErrorKind;

/// The read of a byte, or none at the end of input.
pub(super) fn byte_read(
    answer: io::Result<Option<u8>>,
    faults: &mut u64,
) -> Result<Option<u8>, SourceFailed>
    ensures next { IfOk answer (λ next. result ≡ Ok next) }
    ensures failed { IsErr answer → IsErr result }
    ensures cause { HasCause faults.old faults.new result }
{
    match answer {
        Ok(next) => Ok(next),
        Err(_) => {
            *faults = faults.saturating_add(1);
            Err(SourceFailed)
        }
    }
}

/// A write or a flush.
pub(super) fn written(answer: io::Result<()>, faults: &mut u64) -> Result<(), SinkFailed>
    ensures failed { IsErr result ↔ IsErr answer }
    ensures cause { HasCause faults.old faults.new result }
{
    match answer {
        Ok(()) => Ok(()),
        Err(_) => {
            *faults = faults.saturating_add(1);
            Err(SinkFailed)
        }
    }
}

/// The bytes of a file, of which the runtime reads at most one byte beyond the limit.
pub(super) fn file_read(answer: io::Result<Vec<u8>>) -> Result<Vec<u8>, FileError>
    ensures short { IfOk answer (λ bytes. length bytes.items ≤ most_bytes → result ≡ Ok bytes) }
    ensures long { IfOk answer (λ bytes. most_bytes < length bytes.items → result ≡ Err FileError.TooLong) }
    ensures memory { IfErr answer (λ e. error_kind e ≡ ErrorKind.OutOfMemory → result ≡ Err FileError.OutOfMemory) }
    ensures failed { IfErr answer (λ e. error_kind e ≢ ErrorKind.OutOfMemory → result ≡ Err FileError.Failed) }
{
    match answer {
        Ok(bytes) if bytes.len() > MOST_BYTES => Err(FileError::TooLong),
        Ok(bytes) => Ok(bytes),
        Err(error) => Err(file_error(&error)),
    }
}

/// The write of a file.
pub(super) fn file_written(answer: io::Result<()>) -> Result<(), FileError>
    ensures done { IsOk answer → IsOk result }
    ensures memory { IfErr answer (λ e. error_kind e ≡ ErrorKind.OutOfMemory → result ≡ Err FileError.OutOfMemory) }
    ensures failed { IfErr answer (λ e. error_kind e ≢ ErrorKind.OutOfMemory → result ≡ Err FileError.Failed) }
{
    if let Err(error) = answer {
        return Err(file_error(&error));
    }
    Ok(())
}

/// An error of the runtime is a failure, unless memory ran out.
fn file_error(error: &io::Error) -> FileError
    ensures memory { error_kind error.now ≡ ErrorKind.OutOfMemory → result ≡ FileError.OutOfMemory }
    ensures failed { error_kind error.now ≢ ErrorKind.OutOfMemory → result ≡ FileError.Failed }
{
    if error.kind() == ErrorKind::OutOfMemory {
        FileError::OutOfMemory
    } else {
        FileError::Failed
    }
}

/// Counts a failure.
pub(super) fn counted<T>(answer: Result<T, FileError>, faults: &mut u64) -> Result<T, FileError>
    ensures same { result ≡ answer }
    ensures cause { HasFileCause faults.old faults.new answer }
{
    if let Err(FileError::Failed) = &answer {
        *faults = faults.saturating_add(1);
    }
    answer
}
