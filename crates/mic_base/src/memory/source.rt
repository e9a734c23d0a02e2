//! A source over bytes in memory, whose calls fail where a test asks for it.

ghost use Rattle.std.specs.Prelude.{◌≡◌, ◌≤◌, ◌↔◌, Some, drop, vec_len, IsErr, Contains};
ghost use Rattle.mic_base.specs.Causes.{HasCause};
ghost use Rattle.mic_base.specs.Numbering.{next_number};
ghost use Rattle.mic_base.specs.Streams.{Takes};

use super::calls::Calls;
use crate::source::{Source, SourceFailed};

/// Bytes in memory. The calls numbered in `failing`, from 1, fail.
#[derive(Drop)]
pub struct MemSource {
    bytes: Vec<u8>,
    at: usize,
    calls: Calls,
    ghost within: { at ≤ vec_len bytes },
}

impl MemSource {
    ghost use Rattle.mic_base.specs.Memory.{source_left, source_failing, source_faults, source_number};

    pub fn new(bytes: Vec<u8>, failing: Vec<u64>) -> MemSource
        ensures left { source_left result ≡ bytes.items }
        ensures failing { source_failing result ≡ failing.items }
        ensures number { source_number result ≡ 1 }
        ensures faults { source_faults result ≡ 0 }
    {
        MemSource {
            bytes,
            at: 0,
            calls: Calls::new(failing),
        }
    }

    /// The bytes that have not been taken.
    pub fn left(&self) -> &[u8]
        ensures { result.now ≡ source_left self.now }
    {
        &self.bytes[self.at..]
    }
}

impl Source for MemSource {
    ghost use Rattle.mic_base.specs.Memory.{source_left, source_failing, source_faults, source_number};

    ghost left = { λ s. Some (drop s.at s.bytes.items) };

    ghost faults = { λ s. s.calls.faults };

    fn get(&mut self) -> Result<Option<u8>, SourceFailed>
        ensures takes { Takes (Some (source_left self.old)) result (Some (source_left self.new)) }
        ensures cause { HasCause (source_faults self.old) (source_faults self.new) result }

        ensures failing { IsErr result ↔ Contains (source_failing self.old) (source_number self.old) }
        ensures number { source_number self.new ≡ next_number (source_number self.old) }
        ensures same { source_failing self.new ≡ source_failing self.old }
    {
        if self.calls.is_failing() {
            self.calls.fail();
            return Err(SourceFailed);
        }
        if self.at < self.bytes.len() {
            let byte = self.bytes[self.at];
            self.at += 1;
            Ok(Some(byte))
        } else {
            Ok(None)
        }
    }
}
