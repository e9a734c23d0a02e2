//! The clock edge of a cycle whose accesses need neither a source nor a sink.

ghost use Rattle.std.specs.Prelude.{◌≡◌, ◌≢◌, true, false};
ghost use Rattle.mic1_datapath.specs.Common.{Mic1, fields_of};
ghost use Rattle.mic1_datapath.specs.Cycle.{IsAtEdge, IsQuiet, IsTried, is_done};
ghost use Rattle.mic1_datapath.specs.Latches.{fetches};

use crate::latches::{Latches, is_read};
use console_port::Bus;
use mic_datapath::{Sampled, access_memory, fetch_alone, is_in_memory, read_alone, write_alone};
use micro_word::{Lines, Machine, Mem, bits};

/// What is sampled where nothing is read and nothing fetched.
const NOTHING: Sampled = Sampled {
    word: None,
    byte: None,
};

/// What came of a try to do an edge in one way.
#[derive(Clone, Copy)]
enum Try {
    Done,
    /// Its access is not in memory, and needs the source or the sink, or is refused.
    Outside,
    /// It has accesses that this way does not make.
    Other,
}

/// Whether a word accesses nothing.
fn is_quiet(word: u64) -> bool
    ensures quiet { result ≡ true → IsQuiet word }
    ensures fetches { result ≡ false → (fields_of Mic1 word).mem ≡ 0 → fetches word ≡ true }
{
    bits::mem(Machine::Mic1, word) == 0 && !bits::fetch(Machine::Mic1, word)
}

/// Whether a word neither reads nor writes.
fn transfers_nothing(word: u64) -> bool
    ensures nothing { result ≡ true → (fields_of Mic1 word).mem ≡ 0 }
    ensures something { result ≡ false → (fields_of Mic1 word).mem ≢ 0 }
{
    bits::mem(Machine::Mic1, word) == 0
}

/// The edge of a word that accesses nothing, or one thing, which is in memory, or writes to a console that has room. For any
/// other, nothing is done.
#[inline(always)]
fn edge_of_one(
    latches: &mut Latches,
    word: u64,
    lines: &Lines,
    value: u32,
    c: u32,
    bus: &mut Bus,
) -> Try
    requires { IsAtEdge latches.old word lines.now value c }
    ensures { IsTried word latches.old bus.old latches.new bus.new (is_done result) }
{
    if is_quiet(word) {
        latches.advance(word, lines, value, c, NOTHING);
        return Try::Done;
    }
    // One bit of the word after the other, which is faster than a jump by all three.
    if transfers_nothing(word) {
        let pc = latches.pc_port(word, c);
        if !bus.has(pc / 4) {
            return Try::Outside;
        }
        let sampled = fetch_alone(pc, bus);
        latches.advance(word, lines, value, c, sampled);
        return Try::Done;
    }
    if bits::fetch(Machine::Mic1, word) {
        return Try::Other;
    }
    let mar = latches.mar_port(word, c);
    if is_read(word) {
        if !bus.has(mar) {
            return Try::Outside;
        }
        let sampled = read_alone(mar, bus);
        latches.advance(word, lines, value, c, sampled);
        return Try::Done;
    }
    let mdr = latches.mdr_port(word, c);
    if !write_alone(mar, mdr, bus) {
        return Try::Outside;
    }
    latches.advance(word, lines, value, c, NOTHING);
    Try::Done
}

/// The edge of a word whose accesses reach only memory, or that writes to a console that has room. For any other, nothing
/// is done.
#[inline(always)]
pub fn edge_inside(
    latches: &mut Latches,
    word: u64,
    lines: &Lines,
    value: u32,
    c: u32,
    bus: &mut Bus,
) -> bool
    requires { IsAtEdge latches.old word lines.now value c }
    ensures { IsTried word latches.old bus.old latches.new bus.new result }
{
    // Most words access nothing, and most others one thing.
    match edge_of_one(latches, word, lines, value, c, bus) {
        Try::Done => return true,
        Try::Outside => return false,
        Try::Other => {}
    }
    let mem = Mem::of_bits(bits::mem(Machine::Mic1, word));
    let fetch = bits::fetch(Machine::Mic1, word);
    let ports = latches.ports(word, c);
    if !is_in_memory(mem, fetch, ports.mar, ports.pc, bus) {
        return false;
    }
    let sampled = access_memory(mem, fetch, &ports, bus);
    latches.advance(word, lines, value, c, sampled);
    true
}
