//! The bytes that wait, in a register of 48 bits.

ghost use Rattle.std.specs.Prelude.{◌≡◌, ◌+◌, ◌*◌, ◌<◌, ◌≤◌, ◌^◌, [], ◌++◌, drop, length, slice_index};
ghost use Rattle.mic2_fetch_unit.specs.FetchUnit.{bytes_of_word};
ghost use Rattle.mic2_fetch_unit.specs.Packed.{turned_word};

use arrayvec::ArrayVec;
use std::marker::Model;

/// At most six bytes. The first is in the lowest eight bits of the register, and the bits above the last are 0.
#[derive(Drop)]
pub struct Queue {
    bits: u64,
    count: u8,
}

impl Model for Queue {
    ghost use Rattle.std.specs.Prelude.{ℕ, List, ◌*◌, ◌<◌, ◌≤◌, ◌^◌};
    ghost use Rattle.mic2_fetch_unit.specs.Packed.{bytes_in};

    ghost Value = { List ℕ };

    ghost view = { λ q. bytes_in q.count q.bits };

    ghost invariant = { λ q. (q.count ≤ 6) × (q.bits < 2 ^ (8 * q.count)) };
}

impl Queue {
    pub fn new() -> Queue
        ensures { result ≡ [] }
    {
        Queue { bits: 0, count: 0 }
    }

    /// The number of bytes.
    pub fn count(&self) -> u8
        ensures value { result ≡ length self.now }
        ensures few { result ≤ 6 }
    {
        self.count
    }

    /// The byte at a place.
    pub fn at(&self, place: u8) -> u8
        requires { place < length self.now }
        ensures { result ≡ slice_index self.now place }
    {
        (self.bits >> (8 * place) & 0xFF) as u8
    }

    /// This many bytes leave the front, and `count` stay.
    pub fn leave(&mut self, taken: u8, count: u8)
        requires { count + taken ≡ length self.old }
        ensures { self.new ≡ drop taken self.old }
    {
        let stay = self.bits >> (8 * taken);
        self.bits = stay;
        self.count = count;
    }

    /// A word enters without its first `skip` bytes. The queue then has `count` bytes.
    pub fn enter(&mut self, word: u32, skip: u8, count: u8)
        requires skip { skip < 4 }
        requires count { count + skip ≡ length self.old + 4 }
        requires few { count ≤ 6 }
        ensures { self.new ≡ self.old ++ drop skip (bytes_of_word word) }
    {
        let entering = turned(word) >> (8 * skip);
        self.bits |= (entering as u64) << (8 * self.count);
        self.count = count;
    }

    /// The bytes one by one.
    #[inline(always)]
    pub fn bytes(&self) -> ArrayVec<u8, 6>
        ensures { result.items ≡ self.now }
    {
        let mut bytes = ArrayVec::new();
        for place in 0..self.count() {
            bytes.push(self.at(place));
        }
        bytes
    }
}

/// A word with its bytes in the other order.
fn turned(word: u32) -> u32
    ensures { result ≡ turned_word word }
{
    let front = (word >> 24) + 256 * ((word >> 16) % 256);
    let back = (word >> 8) % 256 + 256 * (word % 256);
    front + 65_536 * back
}
