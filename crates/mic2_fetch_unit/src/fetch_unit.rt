//! The queue, its edge and its jump.

ghost use Rattle.std.specs.Prelude.{◌≡◌, ◌+◌, ◌*◌, ◌≤◌, ◌<◌, ℕ, List, true, Some, None, if◌then◌else◌, length, slice_index};
ghost use Rattle.mic2_fetch_unit.specs.FetchUnit.{HasEdge, Jumps, at_start, sampled_at, edge as edge_of, jump as jump_of, jump_refusal, sample_refusal};

use crate::queue::Queue;
use crate::sampling::{check_jump, check_sample, sampled};
use arrayvec::ArrayVec;
use console_port::{Bus, BusFault};
use std::marker::Model;

/// A queue of at most six instruction bytes, and the word that was sampled for it.
#[derive(Drop)]
pub struct FetchUnit {
    queue: Queue,
    imar: u32,
    skip: u8,
    pending: Option<u32>,
}

impl Model for FetchUnit {
    ghost use Rattle.mic2_fetch_unit.specs.FetchUnit.{Prefetch, IsUnit};

    ghost Value = { Prefetch };

    ghost view = { λ u. record { bytes = u.queue; imar = u.imar; skip = u.skip; pending = u.pending } };

    ghost invariant = { λ u. IsUnit (record { bytes = u.queue; imar = u.imar; skip = u.skip; pending = u.pending }) };
}

/// The address if a word is sampled; otherwise none.
fn at_if(samples: bool, imar: u32) -> Option<u32>
    ensures { result ≡ (if samples then Some imar else None) }
{
    if samples { Some(imar) } else { None }
}

impl FetchUnit {
    /// As after a reset, over a memory with this first word.
    pub fn new(first: u32) -> FetchUnit
        ensures { result ≡ at_start first }
    {
        FetchUnit {
            queue: Queue::new(),
            imar: 0,
            skip: 0,
            pending: Some(first),
        }
    }

    /// The number of bytes in the queue.
    pub fn have(&self) -> u8
        ensures value { result ≡ length self.now.bytes }
        ensures few { result ≤ 6 }
    {
        self.queue.count()
    }

    /// The byte at a place of the queue.
    pub fn byte_at(&self, place: u8) -> u8
        requires { place < length self.now.bytes }
        ensures { result ≡ slice_index self.now.bytes place }
    {
        self.queue.at(place)
    }

    /// The first byte.
    pub fn one(&self) -> u8
        requires { 1 ≤ length self.now.bytes }
        ensures { result ≡ slice_index self.now.bytes 0 }
    {
        self.byte_at(0)
    }

    /// The number that the first two bytes spell.
    pub fn two(&self) -> u16
        requires { 2 ≤ length self.now.bytes }
        ensures value { result ≡ 256 * slice_index self.now.bytes 0 + slice_index self.now.bytes 1 }
        ensures low { slice_index self.now.bytes 1 < 256 }
    {
        256 * self.byte_at(0) as u16 + self.byte_at(1) as u16
    }

    /// The bytes of the queue.
    #[inline(always)]
    pub fn bytes(&self) -> ArrayVec<u8, 6>
        ensures { result.items ≡ self.now.bytes }
    {
        self.queue.bytes()
    }

    /// The word address of the pending word, or of the next one where none is pending.
    pub fn imar(&self) -> u32
        ensures { result ≡ self.now.imar }
    {
        self.imar
    }

    /// Whether more than two bytes stay after an edge that takes this many. It samples nothing then.
    #[inline(always)]
    pub fn is_full(&self, taken: u8) -> bool
        requires { taken ≤ length self.now.bytes }
        ensures more { result ≡ true → taken + 2 < length self.now.bytes }
        ensures samples { result ≡ true → sampled_at taken self.now ≡ None }
    {
        let have = self.queue.count();
        let full = have - taken > 2;
        full
    }

    /// The edge that takes this many bytes and leaves more than two.
    #[inline(always)]
    fn take(&mut self, taken: u8)
        requires { taken + 2 < length self.old.bytes }
        ensures { (words : List ℕ) → self.new ≡ edge_of words taken self.old }
    {
        let stay = self.have() - taken;
        self.queue.leave(taken, stay);
    }

    /// The word address that an edge which takes this many bytes samples, if it samples one.
    #[inline(always)]
    pub fn will_fetch(&self, taken: u8) -> Option<u32>
        requires { taken ≤ length self.now.bytes }
        ensures { result ≡ sampled_at taken self.now }
    {
        let have = self.queue.count();
        let stay = have - taken;
        // Most edges leave more than two bytes, and nothing is pending before them.
        let full = stay > 2;
        if full {
            return None;
        }
        match self.pending {
            Some(_) => at_if(stay + 4 - self.skip <= 2, self.imar.wrapping_add(1)),
            None => Some(self.imar),
        }
    }

    /// The edge where it is not refused: this many bytes leave the queue, a pending word enters it, and where the queue
    /// has few bytes then, the word at this address is sampled.
    #[inline(always)]
    fn go_on(&mut self, taken: u8, at: Option<u32>, bus: &Bus)
        requires within { taken ≤ length self.old.bytes }
        requires at { at ≡ sampled_at taken self.old }
        requires allowed { sample_refusal (length bus.now.words) at ≡ None }
        ensures { self.new ≡ edge_of bus.now.words taken self.old }
    {
        let stay = self.have() - taken;
        let full = stay > 2;
        if full {
            self.take(taken);
            return;
        }
        let pending = sampled(at, bus);
        match self.pending {
            None => {
                self.queue.leave(taken, stay);
                self.pending = pending;
            }
            Some(word) => {
                self.queue.leave(taken, stay);
                self.queue.enter(word, self.skip, stay + 4 - self.skip);
                self.imar = self.imar.wrapping_add(1);
                self.skip = 0;
                self.pending = pending;
            }
        }
    }

    /// The jump where it is not refused: the unit goes on at this byte address.
    #[tactic(auto, unfolding(crate::specs::FetchUnit::jump, console_port::specs::World::word_refusal))]
    fn go_to(&mut self, pc: u32, bus: &Bus)
        requires { jump_refusal (length bus.now.words) pc ≡ None }
        ensures { self.new ≡ jump_of bus.now.words pc }
    {
        self.queue = Queue::new();
        self.imar = pc / 4;
        self.skip = (pc % 4) as u8;
        self.pending = Some(bus.word(pc / 4));
    }

    /// The edge that samples this word address, if it samples one. An Err is `OutOfMap`.
    #[inline(always)]
    #[tactic(auto, unfolding(crate::specs::FetchUnit::edge_refusal))]
    fn edge_at(&mut self, taken: u8, at: Option<u32>, bus: &Bus) -> Result<(), BusFault>
        requires within { taken ≤ length self.old.bytes }
        requires at { at ≡ sampled_at taken self.old }
        ensures { HasEdge bus.now.words taken self.old self.new result }
    {
        check_sample(at, bus)?;
        self.go_on(taken, at, bus);
        Ok(())
    }

    /// The edge that takes this many bytes. An Err is `OutOfMap`.
    #[inline(always)]
    #[tactic(auto, unfolding(crate::specs::FetchUnit::edge_refusal))]
    pub fn edge(&mut self, taken: u8, bus: &Bus) -> Result<(), BusFault>
        requires { taken ≤ length self.old.bytes }
        ensures { HasEdge bus.now.words taken self.old self.new result }
    {
        // Most edges leave more than two bytes, and nothing is pending before them.
        let full = self.is_full(taken);
        if full {
            self.take(taken);
            return Ok(());
        }
        let at = self.will_fetch(taken);
        match at {
            None => self.edge_at(taken, None, bus),
            Some(at) => self.edge_at(taken, Some(at), bus),
        }
    }

    /// The jump to a byte address. An Err is `OutOfMap`.
    #[inline(always)]
    pub fn jump(&mut self, pc: u32, bus: &Bus) -> Result<(), BusFault>
        ensures { Jumps bus.now.words pc self.old self.new result }
    {
        check_jump(pc, bus)?;
        self.go_to(pc, bus);
        Ok(())
    }
}
