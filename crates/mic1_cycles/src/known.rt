//! What is known of words where a run starts.
ghost use Rattle.std.specs.Prelude.{◌≡◌, ◌<◌, ◌≤◌, ℕ, IfSome, IsTrue};
ghost use Rattle.std.specs.List.{All};
ghost use Rattle.mic1_cycles.specs.Common.{byte_in, Environment, Holds};
ghost use Rattle.mic1_cycles.specs.Known.{Knows, StandsAt};

use crate::symbols::Write;
use micro_terms::{Nodes, Range};

/// A byte of the text, at the byte address that a number stands for.
#[derive(Clone, Copy, Debug, PartialEq, Eq)]
pub struct KnownByte {
    pub at: u32,
    pub byte: u8,
}

/// A word of memory with its number, at the address that another number stands for.
#[derive(Clone, Copy, Debug, PartialEq, Eq)]
pub struct KnownWord {
    pub at: u32,
    pub number: u32,
}

/// What is known at the start.
#[derive(Drop)]
pub struct Known {
    /// The ranges of the first numbers.
    pub ranges: Vec<Range>,
    pub bytes: Vec<KnownByte>,
    pub words: Vec<KnownWord>,
}

/// Whether a number's word is known to be below this one.
pub fn is_below(number: u32, limit: u32, nodes: &Nodes, known: &Known) -> bool
    ensures { IsTrue result → Holds nodes.now (λ e. Knows e known.now → e.word number < limit) }
{
    match nodes.range_of(number, &known.ranges) {
        Some(range) => range.high < limit,
        None => false,
    }
}

/// Whether a number's word is known to be this one or above.
fn is_at_least(number: u32, limit: u32, nodes: &Nodes, known: &Known) -> bool
    ensures { IsTrue result → Holds nodes.now (λ e. Knows e known.now → limit ≤ e.word number) }
{
    match nodes.range_of(number, &known.ranges) {
        Some(range) => range.low >= limit,
        None => false,
    }
}

/// Whether all writes are known to be above the text and the pool.
pub fn are_above(writes: &[Write], nodes: &Nodes, known: &Known) -> bool
    ensures { IsTrue result → Holds nodes.now (λ e. Knows e known.now → All (λ w. 0x8000 ≤ e.word w.at) writes.now) }
{
    for write in writes {
        if !is_at_least(write.at, 0x8000, nodes, known) {
            return false;
        }
    }
    true
}

/// The byte at the byte address of a number, if it is known.
pub fn known_byte(at: u32, bytes: &[KnownByte]) -> Option<u8>
    ensures { IfSome result (λ byte. (e : Environment) → All (λ b. byte_in e.start.words (e.word b.at) ≡ b.byte) bytes.now →
        byte_in e.start.words (e.word at) ≡ byte) }
{
    for known in bytes {
        if known.at == at {
            return Some(known.byte);
        }
    }
    None
}

/// The number of the word at the address of a number, if it is known that memory has one there, and which.
pub fn known_word(at: u32, words: &[KnownWord]) -> Option<u32>
    ensures { IfSome result (λ number. (e : Environment) → All (λ w. StandsAt e w.at w.number) words.now → StandsAt e at number) }
{
    for known in words {
        if known.at == at {
            return Some(known.number);
        }
    }
    None
}
