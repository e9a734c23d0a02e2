//! A reader, such as standard input, read from what it holds ahead.

ghost use Rattle.std.specs.Prelude.{◌≡◌, ◌<◌, IfOk, OnErr, length, take};
ghost use Rattle.std.specs.Io.{ReadsAtMost};
ghost use Rattle.std.specs.Io.KnownBytes.{Consumes, IsAtEnd, Keeps};

use std::io;
use std::io::{BufRead, Read};

/// A buffered reader that is filled before each read, so that most reads only take what it holds ahead.
#[derive(Drop)]
pub struct ReadAhead<R> {
    reader: R,
}

impl<R> ReadAhead<R> {
    ghost use Rattle.mic_base.specs.Standard.{read_ahead_of};

    pub fn new(reader: R) -> ReadAhead<R>
        ensures { read_ahead_of result ≡ reader }
    {
        ReadAhead { reader }
    }
}

impl<R: BufRead> Read for ReadAhead<R> {
    ghost use Rattle.mic_base.specs.Standard.{read_ahead_of};

    /// The next bytes of the reader, or none at its end. A reader that shows its end is not asked again: at a terminal,
    /// that would be for a second end.
    fn read(&mut self, buf: &mut [u8]) -> io::Result<usize>
        ensures bound { ReadsAtMost result buf.new }
        ensures bytes { IfOk result (λ n. Consumes (R.remaining (read_ahead_of self.old)) (R.remaining (read_ahead_of self.new)) (take n buf.new)) }
        ensures end { IfOk result (λ n. n ≡ 0 → 0 < length buf.new → IsAtEnd (R.remaining (read_ahead_of self.old))) }
        ensures failed { OnErr result (Keeps (R.remaining (read_ahead_of self.old)) (R.remaining (read_ahead_of self.new))) }
    {
        if self.reader.fill_buf()?.is_empty() {
            return Ok(0);
        }
        self.reader.read(buf)
    }
}
