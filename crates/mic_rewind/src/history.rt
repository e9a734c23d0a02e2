//! The last cycles of a board, and a cursor among them.

ghost use Rattle.std.specs.Prelude.{◌≡◌, ◌≤◌, ◌<◌, [], ◌∷◌, length, slice_get, true, false, None, IfOk};
ghost use Rattle.mic_clock.specs.Prelude.{tick_of};
ghost use Rattle.mic_rewind.specs.States.{snapshot_after};
ghost use Rattle.mic_rewind.specs.View.{GoesBack, appended, history_of, kept_in};

use crate::kept_cycle::KeptCycle;
use crate::memory::{redo, take_over, undo};
use crate::moment::Moment;
use circular_buffer::HeapCircularBuffer;
use mic_clock::Tick;
use std::alloc::{AllocError, Global};
use std::marker::Model;

/// The last cycles, and a memory of its own, as it was at the cursor.
#[derive(Drop)]
pub struct History {
    /// Where the first of all cycles began.
    first: Moment,
    /// One more than can be gone back over, because each began where the one before it led.
    cycles: HeapCircularBuffer<KeptCycle>,
    /// The cycles from the cursor to the newest state.
    behind: usize,
    memory: Vec<u32>,
}

impl Model for History {
    ghost use Rattle.mic_rewind.specs.View.{AreKept, HistoryView, first_in, kept_in, view_from};

    ghost Value = { HistoryView };

    ghost view = { λ h. view_from (first_in h.first h.cycles) (kept_in h.cycles) h.behind h.memory.items };

    ghost invariant = { λ h. AreKept (first_in h.first h.cycles) (kept_in h.cycles) h.behind h.memory.items };
}

/// How many of a buffer's cycles can be gone back over.
fn count_in(cycles: &HeapCircularBuffer<KeptCycle>) -> usize
    requires { 0 < cycles.now.capacity }
    ensures { result ≡ length (kept_in cycles.now).items }
{
    if cycles.is_full() {
        cycles.len() - 1
    } else {
        cycles.len()
    }
}

impl History {
    /// Begins at one moment, with these memory words. At most `depth` cycles are kept.
    pub fn new(
        alloc: Global,
        here: Moment,
        memory: Vec<u32>,
        depth: u32,
    ) -> Result<History, AllocError>
        requires { (0 < depth) × (depth ≤ 65536) }
        ensures { IfOk result (λ h. h ≡ history_of (record { moment = here; words = memory.items }) depth) }
    {
        Ok(History {
            first: here,
            cycles: HeapCircularBuffer::with_capacity(alloc, depth as usize + 1)?,
            behind: 0,
            memory,
        })
    }

    /// The number of kept cycles before the cursor.
    pub fn kept(&self) -> usize
        ensures is { result ≡ length self.now.before }
        ensures most { result ≤ 65536 }
    {
        count_in(&self.cycles) - self.behind
    }

    /// The number of kept cycles from the cursor to the newest state.
    pub fn behind(&self) -> usize
        ensures is { result ≡ length self.now.after }
        ensures most { result ≤ 65536 }
    {
        self.behind
    }

    /// The moment at the cursor.
    pub fn here(&self) -> &Moment
        ensures { result.now ≡ self.now.here.moment }
    {
        let place = self.cycles.len() - self.behind;
        if place == 0 {
            return &self.first;
        }
        &self.cycles.get(place - 1).unwrap().after
    }

    /// The memory word at the cursor, or none where there is no memory.
    pub fn peek(&self, at: u32) -> Option<u32>
        ensures { result ≡ slice_get self.now.here.words at }
    {
        self.memory.get(at as usize).copied()
    }

    /// Keeps a cycle that led from the newest state to this moment, and left this word at MAR.
    #[inline(always)]
    pub fn append(&mut self, after: Moment, tick: Tick, word: Option<u32>)
        requires newest { self.old.after ≡ [] }
        requires tick { tick ≡ tick_of self.old.here.moment.counts after.counts None }
        ensures { self.new ≡ appended self.old (snapshot_after after word self.old.here.words) }
    {
        let written = take_over(&mut self.memory, after.registers.mar, word);
        self.cycles.push_back(KeptCycle {
            after,
            tick,
            written,
        });
    }

    /// Goes back over the kept cycle before the cursor, and returns whether there was one.
    pub fn back(&mut self) -> bool
        ensures went { result ≡ true → GoesBack self.old self.new }
        ensures stayed { result ≡ false → (self.old.before ≡ []) × (self.new ≡ self.old) }
    {
        if self.kept() == 0 {
            return false;
        }
        let place = self.cycles.len() - self.behind;
        let cycle = self.cycles.get(place - 1).unwrap();
        undo(&mut self.memory, cycle.written);
        self.behind += 1;
        true
    }

    /// Goes forward over the kept cycle after the cursor.
    pub fn forward(&mut self) -> Tick
        requires { 0 < length self.old.after }
        ensures went { GoesBack self.new self.old }
        ensures tick { result ≡ tick_of self.old.here.moment.counts self.new.here.moment.counts None }
    {
        let cycle = self.cycles.get(self.cycles.len() - self.behind).unwrap();
        redo(&mut self.memory, cycle.written);
        self.behind -= 1;
        cycle.tick
    }
}
