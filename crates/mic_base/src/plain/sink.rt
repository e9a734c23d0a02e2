//! A sink that takes everything and keeps nothing.

ghost use Rattle.std.specs.Prelude.{IsOk, None};

use crate::sink::{Sink, SinkFailed};

/// Takes everything and never fails. What it was given is not known.
#[derive(Clone, Copy, Debug, PartialEq, Eq)]
pub struct PlainSink;

impl PlainSink {
    pub fn new() -> PlainSink {
        PlainSink
    }
}

impl Sink for PlainSink {
    ghost held = { λ s. None };

    ghost passed = { λ s. None };

    ghost faults = { λ s. 0 };

    fn put(&mut self, _piece: &[u8]) -> Result<(), SinkFailed>
        ensures { IsOk result }
    {
        Ok(())
    }

    fn flush(&mut self) -> Result<(), SinkFailed>
        ensures { IsOk result }
    {
        Ok(())
    }
}
