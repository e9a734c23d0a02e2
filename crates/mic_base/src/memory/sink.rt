//! A sink that keeps its bytes in memory, whose calls fail where a test asks for it.

ghost use Rattle.std.specs.Prelude.{◌≡◌, ◌≤◌, ◌<◌, ◌↔◌, [], Some, vec_len, vec_capacity, take, IsErr, OnOk, OnErr, IfOk, Contains};
ghost use Rattle.mic_base.specs.Causes.{HasCause};
ghost use Rattle.mic_base.specs.Numbering.{next_number};
ghost use Rattle.mic_base.specs.Streams.{KeepsFront, Puts};

use super::calls::Calls;
use crate::sink::{Sink, SinkFailed};
use std::alloc::{AllocError, Global};

/// At most `room` bytes in memory. The calls of `put` and `flush` that are numbered in `failing`, from 1, fail.
#[derive(Drop)]
pub struct MemSink {
    bytes: Vec<u8>,
    passed: usize,
    room: usize,
    calls: Calls,
    ghost within: { passed ≤ vec_len bytes },
    ghost roomy: { room ≤ vec_capacity bytes },
    ghost fits: { vec_len bytes ≤ room },
}

impl MemSink {
    ghost use Rattle.mic_base.specs.Memory.{IsSameSink, sink_bytes, sink_failing, sink_faults, sink_number, sink_passed, sink_room};

    /// Allocates all the memory that it will use.
    pub fn new(alloc: Global, room: u32, failing: Vec<u64>) -> Result<MemSink, AllocError>
        ensures bytes { IfOk result (λ s. sink_bytes s ≡ []) }
        ensures passed { IfOk result (λ s. sink_passed s ≡ []) }
        ensures room { IfOk result (λ s. sink_room s ≡ room) }
        ensures failing { IfOk result (λ s. sink_failing s ≡ failing.items) }
        ensures number { IfOk result (λ s. sink_number s ≡ 1) }
        ensures faults { IfOk result (λ s. sink_faults s ≡ 0) }
    {
        let room = room as usize;
        Ok(MemSink {
            bytes: Vec::with_capacity(alloc, room)?,
            passed: 0,
            room,
            calls: Calls::new(failing),
        })
    }

    /// The bytes that were put.
    pub fn bytes(&self) -> &[u8]
        ensures { result.now ≡ sink_bytes self.now }
    {
        &self.bytes
    }

    /// Those of them that were flushed.
    pub fn passed(&self) -> &[u8]
        ensures { result.now ≡ sink_passed self.now }
    {
        &self.bytes[..self.passed]
    }
}

impl Sink for MemSink {
    ghost use Rattle.mic_base.specs.Memory.{FailsToPut, IsSameSink, sink_bytes, sink_failing, sink_faults, sink_number, sink_passed, sink_room};

    ghost held = { λ s. Some s.bytes.items };

    ghost passed = { λ s. Some (take s.passed s.bytes.items) };

    ghost faults = { λ s. s.calls.faults };

    fn put(&mut self, piece: &[u8]) -> Result<(), SinkFailed>
        ensures puts { Puts (Some (sink_bytes self.old)) piece.now result (Some (sink_bytes self.new)) }
        ensures keeps { KeepsFront (Some (sink_bytes self.old)) (Some (sink_bytes self.new)) }
        ensures passed { sink_passed self.new ≡ sink_passed self.old }
        ensures cause { HasCause (sink_faults self.old) (sink_faults self.new) result }

        ensures failing { IsErr result ↔ FailsToPut self.old piece.now }
        ensures nothing { OnErr result (sink_bytes self.new ≡ sink_bytes self.old) }
        ensures number { sink_number self.new ≡ next_number (sink_number self.old) }
        ensures same { IsSameSink self.old self.new }
    {
        if self.calls.is_failing() || piece.len() > self.room - self.bytes.len() {
            self.calls.fail();
            return Err(SinkFailed);
        }
        self.bytes.extend_from_slice(piece).unwrap();
        Ok(())
    }

    fn flush(&mut self) -> Result<(), SinkFailed>
        ensures held { sink_bytes self.new ≡ sink_bytes self.old }
        ensures passed { OnOk result (sink_passed self.new ≡ sink_bytes self.new) }
        ensures keeps { KeepsFront (Some (sink_passed self.old)) (Some (sink_passed self.new)) }
        ensures cause { HasCause (sink_faults self.old) (sink_faults self.new) result }

        ensures failing { IsErr result ↔ Contains (sink_failing self.old) (sink_number self.old) }
        ensures nothing { OnErr result (sink_passed self.new ≡ sink_passed self.old) }
        ensures number { sink_number self.new ≡ next_number (sink_number self.old) }
        ensures same { IsSameSink self.old self.new }
    {
        if self.calls.is_failing() {
            self.calls.fail();
            return Err(SinkFailed);
        }
        self.passed = self.bytes.len();
        Ok(())
    }
}
