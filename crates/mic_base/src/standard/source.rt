//! A source over any reader, such as standard input.

ghost use Rattle.std.specs.Prelude.{◌≡◌, ◌≢◌, None, IfErr};
ghost use Rattle.std.specs.IoError.{error_kind};
ghost use Rattle.mic_base.specs.Causes.{HasCause};
ghost use Rattle.mic_base.specs.Streams.{ReadsNext, Takes};

use super::answers::byte_read;
use crate::source::{Source, SourceFailed};
use std::io;
use std::io::{ErrorKind, Read};

/// The bytes of a reader, such as standard input.
#[derive(Drop)]
pub struct StdSource<R> {
    reader: R,
    faults: u64,
}

impl<R> StdSource<R> {
    ghost use Rattle.mic_base.specs.Standard.{reader_faults, reader_of};

    pub fn new(reader: R) -> StdSource<R>
        ensures reader { reader_of result ≡ reader }
        ensures faults { reader_faults result ≡ 0 }
    {
        StdSource { reader, faults: 0 }
    }
}

impl<R: Read> Source for StdSource<R> {
    ghost use Rattle.mic_base.specs.Standard.{reader_faults, reader_of};

    ghost left = { λ s. None };

    ghost faults = { λ s. s.faults };

    fn get(&mut self) -> Result<Option<u8>, SourceFailed>
        ensures takes { Takes None result None }
        ensures cause { HasCause (reader_faults self.old) (reader_faults self.new) result }

        // What is read is the reader's next byte, and the end is the reader's, where its bytes are known.
        ensures read { ReadsNext (R.remaining (reader_of self.old)) result (R.remaining (reader_of self.new)) }
    {
        byte_read(next_byte(&mut self.reader), &mut self.faults)
    }
}

/// The reader's next byte, or none at its end. A read that a signal interrupts is tried again.
fn next_byte<R: Read>(reader: &mut R) -> io::Result<Option<u8>>
    ensures uninterrupted { IfErr result (λ e. error_kind e ≢ ErrorKind.Interrupted) }
    ensures read { ReadsNext (R.remaining reader.old) result (R.remaining reader.new) }
{
    // A loop is proved to end, so this one counts its turns.
    for _ in 0..u64::MAX {
        let mut byte = [0];
        match reader.read(&mut byte) {
            Ok(0) => return Ok(None),
            Ok(_) => return Ok(Some(byte[0])),
            Err(error) => {
                if error.kind() != ErrorKind::Interrupted {
                    return Err(error);
                }
            }
        }
    }
    Err(io::Error::from(ErrorKind::TimedOut))
}
