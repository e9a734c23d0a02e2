//! A sink over any writer, such as standard output or standard error.

ghost use Rattle.std.specs.Prelude.{◌≡◌, None, OnOk};
ghost use Rattle.std.specs.Io.KnownBytes.{Appends, Keeps};
ghost use Rattle.mic_base.specs.Causes.{HasCause};

use super::answers::written;
use crate::sink::{Sink, SinkFailed};
use std::io::Write;

/// A writer, such as standard output or standard error.
#[derive(Drop)]
pub struct StdSink<W> {
    writer: W,
    faults: u64,
}

impl<W> StdSink<W> {
    ghost use Rattle.mic_base.specs.Standard.{writer_faults, writer_of};

    pub fn new(writer: W) -> StdSink<W>
        ensures writer { writer_of result ≡ writer }
        ensures faults { writer_faults result ≡ 0 }
    {
        StdSink { writer, faults: 0 }
    }
}

impl<W: Write> Sink for StdSink<W> {
    ghost use Rattle.mic_base.specs.Standard.{writer_faults, writer_of};

    ghost held = { λ s. None };

    ghost passed = { λ s. None };

    ghost faults = { λ s. s.faults };

    fn put(&mut self, piece: &[u8]) -> Result<(), SinkFailed>
        ensures cause { HasCause (writer_faults self.old) (writer_faults self.new) result }

        // The piece was written, where it is known what the writer holds.
        ensures written { OnOk result (Appends (W.contents (writer_of self.old)) (W.contents (writer_of self.new)) piece.now) }
    {
        written(self.writer.write_all(piece), &mut self.faults)
    }

    fn flush(&mut self) -> Result<(), SinkFailed>
        ensures cause { HasCause (writer_faults self.old) (writer_faults self.new) result }
        ensures kept { OnOk result (Keeps (W.contents (writer_of self.old)) (W.contents (writer_of self.new))) }
    {
        written(self.writer.flush(), &mut self.faults)
    }
}
