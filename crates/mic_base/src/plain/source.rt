//! A source that never fails.

ghost use Rattle.std.specs.Prelude.{◌≡◌, ◌≤◌, Some, drop, vec_len, IsOk};
ghost use Rattle.mic_base.specs.Causes.{HasCause};
ghost use Rattle.mic_base.specs.Streams.{Takes};

use crate::source::{Source, SourceFailed};

/// Bytes in memory. Those that are left are known, and no call fails.
#[derive(Drop)]
pub struct PlainSource {
    bytes: Vec<u8>,
    at: usize,
    ghost within: { at ≤ vec_len bytes },
}

impl PlainSource {
    ghost use Rattle.mic_base.specs.Plain.{plain_left};

    pub fn new(bytes: Vec<u8>) -> PlainSource
        ensures { plain_left result ≡ bytes.items }
    {
        PlainSource { bytes, at: 0 }
    }
}

impl Source for PlainSource {
    ghost use Rattle.mic_base.specs.Plain.{plain_left};

    ghost left = { λ s. Some (drop s.at s.bytes.items) };

    ghost faults = { λ s. 0 };

    fn get(&mut self) -> Result<Option<u8>, SourceFailed>
        ensures takes { Takes (Some (plain_left self.old)) result (Some (plain_left self.new)) }
        ensures cause { HasCause 0 0 result }
        ensures never { IsOk result }
    {
        if self.at < self.bytes.len() {
            let byte = self.bytes[self.at];
            self.at += 1;
            Ok(Some(byte))
        } else {
            Ok(None)
        }
    }
}
