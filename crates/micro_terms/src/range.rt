//! What the ranges of words say of sums.
ghost use Rattle.std.specs.Prelude.{◌≡◌, ◌≢◌, ℕ, ◌*◌, ◌+◌, ◌≤◌, ◌<◌, ◌^◌, ◌%◌, IsTrue, IfOk, IfSome};
ghost use Rattle.micro_terms.specs.Value.{value};
ghost use Rattle.micro_terms.specs.Ranges.{IsLimited, IsWithin, is_byte_at, limit_of, share, side};

use crate::node::{Node, is_byte_kind};
use crate::part::Part;
use crate::term::Term;
use std::alloc::{AllocError, Global};

/// The least and the greatest word.
#[derive(Clone, Copy, Debug, PartialEq, Eq)]
pub struct Range {
    pub low: u32,
    pub high: u32,
}

/// What a coefficient adds, or what it takes away, read with its sign.
#[tactic(auto, unfolding(crate::specs::Ranges::share, mic_words::specs::Arithmetic::wrap))]
fn share_of(coefficient: u32, added: bool) -> u32
    ensures { result ≡ share added coefficient }
{
    if coefficient < 0x8000_0000 {
        if added { coefficient } else { 0 }
    } else if added {
        0
    } else {
        0u32.wrapping_sub(coefficient)
    }
}

/// Whether the table has a byte at this number.
fn is_byte(table: &[Node], number: u32) -> bool
    ensures { result ≡ is_byte_at table.now number }
{
    match table.get(number as usize) {
        Some(Node::Other(kind)) => is_byte_kind(*kind),
        _ => false,
    }
}

/// The least or the greatest word of a number.
#[tactic(auto, unfolding(crate::specs::Ranges::end_of, crate::specs::Ranges::limit_of))]
fn end(table: &[Node], ranges: &[Range], number: u32, greatest: bool) -> u32
    ensures { result ≡ limit_of table.now ranges.now greatest number }
{
    if greatest && is_byte(table, number) {
        return 255;
    }
    match ranges.get(number as usize) {
        Some(range) => if greatest { range.high } else { range.low },
        None => if greatest { u32::MAX } else { 0 },
    }
}

/// The range of a number; past the end of the list that of a byte, if the table has one there, and else that of any word.
pub fn range_at(table: &[Node], ranges: &[Range], number: u32) -> Range
    ensures { (env : ℕ → ℕ) → IsLimited env table.now ranges.now → IsWithin result (env number) }
{
    Range {
        low: end(table, ranges, number, false),
        high: end(table, ranges, number, true),
    }
}

fn product(a: u32, b: u32) -> u64
    ensures { result ≡ a * b }
{
    u64::from(a) * u64::from(b)
}

/// What a term adds, or what it takes away, where each word is at an end of its range.
fn side_of(term: &Term, table: &[Node], ranges: &[Range], added: bool, greatest: bool) -> u128
    ensures value { result ≡ side added (limit_of table.now ranges.now greatest) term.now }
    ensures small { result < 2 ^ 127 }
{
    let mut total = u128::from(share_of(term.constant, added));
    for part in &term.parts {
        total += u128::from(product(
            share_of(part.coefficient, added),
            end(table, ranges, part.number, greatest),
        ));
    }
    total
}

/// The difference, if it is a word.
fn difference(a: u128, b: u128) -> Option<u32>
    ensures { IfSome result (λ word. (b + word ≡ a) × (word < 2 ^ 32)) }
{
    if a < b {
        return None;
    }
    match u32::try_from(a - b) {
        Ok(word) => Some(word),
        Err(_) => None,
    }
}

/// The range of a term that is a word over the whole numbers once this multiple of 2^32 is added.
fn bounds_with(turn: u64, term: &Term, table: &[Node], ranges: &[Range]) -> Option<Range>
    requires { turn % 4294967296 ≡ 0 }
    ensures { IfSome result (λ r. (env : ℕ → ℕ) → IsLimited env table.now ranges.now → IsWithin r (value env term.now)) }
{
    let least = side_of(term, table, ranges, true, false) + u128::from(turn);
    let most = side_of(term, table, ranges, true, true) + u128::from(turn);
    let low = difference(least, side_of(term, table, ranges, false, true))?;
    let high = difference(most, side_of(term, table, ranges, false, false))?;
    Some(Range { low, high })
}

/// The range of a term whose words lie in these ranges; `None` if that is not known.
pub fn bounds(term: &Term, table: &[Node], ranges: &[Range]) -> Option<Range>
    ensures { IfSome result (λ r. (env : ℕ → ℕ) → IsLimited env table.now ranges.now → IsWithin r (value env term.now)) }
{
    match bounds_with(0, term, table, ranges) {
        Some(range) => Some(range),
        None => bounds_with(0x1_0000_0000, term, table, ranges),
    }
}

/// Whether the ranges show that two terms differ.
pub fn differ(
    a: &Term,
    b: &Term,
    table: &[Node],
    ranges: &[Range],
    alloc: Global,
) -> Result<bool, AllocError>
    ensures { IfOk result (λ answer. IsTrue answer → (env : ℕ → ℕ) → IsLimited env table.now ranges.now → value env a.now ≢ value env b.now) }
{
    let difference = a.minus(b, alloc)?;
    match bounds(&difference, table, ranges) {
        Some(range) => Ok(range.low > 0),
        None => Ok(false),
    }
}
