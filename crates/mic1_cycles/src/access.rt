//! What the accesses of a cycle read.
ghost use Rattle.std.specs.Prelude.{◌≡◌, ◌<◌, ◌≤◌, ◌/◌, ℕ, IfOk, IfSome, List, length, slice_index};
ghost use Rattle.micro_terms.specs.Prelude.{Grows, Holds};
ghost use Rattle.mic1_cycles.specs.Trail.{written_by};
ghost use Rattle.mic1_cycles.specs.Questions.{AreAnswered};
ghost use Rattle.mic1_cycles.specs.Known.{Knows};
ghost use Rattle.mic1_cycles.specs.Sites.{IsAfterWrite, IsByteIn, Reads};

use crate::known::{Known, are_above, is_below, known_byte, known_word};
use crate::question::Answer;
use crate::site::{Site, site_of};
use crate::symbols::{Byte, Write};
use mic_datapath::sign_extended;
use micro_terms::{Kind, Nodes};
use std::alloc::{AllocError, Global};

/// The number of the word at an address after a write, where it had the number `before` before the write.
fn word_after(
    write: Write,
    at: u32,
    before: u32,
    nodes: &mut Nodes,
    known: &Known,
    alloc: Global,
) -> Result<u32, AllocError>
    ensures value { IfOk result (λ i. Holds nodes.new (λ e. Knows e known.now → IsAfterWrite e write at before i)) }
    ensures grows { Grows nodes.old nodes.new }
{
    if write.at == at {
        return Ok(write.value);
    }
    if nodes.are_apart(write.at, at, &known.ranges, alloc)? {
        return Ok(before);
    }
    let word = nodes.of_kind(Kind::Choice {
        left: write.at,
        right: at,
        same: write.value,
        other: before,
    })?;
    Ok(word)
}

/// The number of the word at an address in memory where the run starts.
fn first_word(at: u32, nodes: &mut Nodes, known: &Known) -> Result<u32, AllocError>
    ensures value { IfOk result (λ i. Holds nodes.new (λ e. Knows e known.now → e.word i ≡ slice_index e.start.words (e.word at))) }
    ensures grows { Grows nodes.old nodes.new }
{
    if let Some(number) = known_word(at, &known.words) {
        return Ok(number);
    }
    let word = nodes.of_kind(Kind::Word { at })?;
    Ok(word)
}

/// The number of the word at an address in memory after the writes.
fn word_at(
    at: u32,
    writes: &[Write],
    nodes: &mut Nodes,
    known: &Known,
    alloc: Global,
) -> Result<u32, AllocError>
    ensures value { IfOk result (λ i. Holds nodes.new (λ e. Knows e known.now → e.word at < length e.start.words →
        e.word i ≡ slice_index (written_by e.word writes.now e.start.words) (e.word at))) }
    ensures grows { Grows nodes.old nodes.new }
{
    let mut word = first_word(at, nodes, known)?;
    for write in writes {
        word = word_after(*write, at, word, nodes, known, alloc)?;
    }
    Ok(word)
}

/// The byte at a byte address where the run starts.
fn first_byte(at: u32, nodes: &mut Nodes, known: &Known, alloc: Global) -> Result<Byte, AllocError>
    ensures value { IfOk result (λ b. Holds nodes.new (λ e. Knows e known.now → IsByteIn e e.start.words at b)) }
    ensures grows { Grows nodes.old nodes.new }
{
    if let Some(byte) = known_byte(at, &known.bytes) {
        let plain = nodes.of_word(u32::from(byte), alloc)?;
        let signed = nodes.of_word(sign_extended(byte), alloc)?;
        return Ok(Byte { plain, signed });
    }
    let plain = nodes.of_kind(Kind::Byte { at })?;
    let signed = nodes.of_kind(Kind::SignedByte { at })?;
    Ok(Byte { plain, signed })
}

/// The byte at a byte address whose word has this number.
fn byte_of_word(word: u32, at: u32, nodes: &mut Nodes) -> Result<Byte, AllocError>
    ensures value { IfOk result (λ b. Holds nodes.new (λ e. (words : List ℕ) → e.word word ≡ slice_index words (e.word at / 4) → IsByteIn e words at b)) }
    ensures grows { Grows nodes.old nodes.new }
{
    let plain = nodes.of_kind(Kind::Piece { of: word, at })?;
    let signed = nodes.of_kind(Kind::SignedPiece { of: word, at })?;
    Ok(Byte { plain, signed })
}

/// The byte at a byte address of the text, if no write reaches the text.
fn unwritten_byte(
    at: u32,
    writes: &[Write],
    nodes: &mut Nodes,
    known: &Known,
    alloc: Global,
) -> Result<Option<Byte>, AllocError>
    ensures value { IfOk result (λ found. IfSome found (λ b. Holds nodes.new (λ e. Knows e known.now →
        IsByteIn e (written_by e.word writes.now e.start.words) at b))) }
    ensures grows { Grows nodes.old nodes.new }
{
    if !is_below(at, 0x20000, nodes, known) {
        return Ok(None);
    }
    if !are_above(writes, nodes, known) {
        return Ok(None);
    }
    let byte = first_byte(at, nodes, known, alloc)?;
    Ok(Some(byte))
}

/// The byte at a byte address after the writes.
pub fn byte_at(
    at: u32,
    writes: &[Write],
    nodes: &mut Nodes,
    known: &Known,
    alloc: Global,
) -> Result<Byte, AllocError>
    ensures value { IfOk result (λ b. Holds nodes.new (λ e. Knows e known.now → e.word at / 4 < length e.start.words →
        IsByteIn e (written_by e.word writes.now e.start.words) at b)) }
    ensures grows { Grows nodes.old nodes.new }
{
    if let Some(byte) = unwritten_byte(at, writes, nodes, known, alloc)? {
        return Ok(byte);
    }
    let quarter = nodes.of_kind(Kind::Quarter { of: at })?;
    let word = word_at(quarter, writes, nodes, known, alloc)?;
    let whole = byte_of_word(word, at, nodes)?;
    Ok(whole)
}

/// The word that a read has under way, and how many bytes were taken after it.
#[derive(Clone, Copy, Debug, PartialEq, Eq)]
pub struct Read {
    pub word: u32,
    pub taken: u32,
}

/// What a read comes to, if it is known that it reaches memory or the console.
pub fn read_at(
    at: u32,
    writes: &[Write],
    taken: u32,
    answers: &[Answer],
    nodes: &mut Nodes,
    known: &Known,
    alloc: Global,
) -> Result<Option<Read>, AllocError>
    ensures value { IfOk result (λ found. IfSome found (λ r. Holds nodes.new (λ e. Knows e known.now → AreAnswered e answers.now →
        Reads e at writes.now taken r.word r.taken))) }
    ensures grows { Grows nodes.old nodes.new }
{
    match site_of(at, nodes, known, answers) {
        Site::Memory => {
            let word = word_at(at, writes, nodes, known, alloc)?;
            Ok(Some(Read { word, taken }))
        }
        Site::Console => {
            let Some(more) = taken.checked_add(1) else {
                return Ok(None);
            };
            let word = nodes.of_kind(Kind::Input { before: taken })?;
            Ok(Some(Read { word, taken: more }))
        }
        _ => Ok(None),
    }
}
