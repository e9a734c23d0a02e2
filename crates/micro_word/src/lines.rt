//! The control lines of a word, decoded before it is clocked.
ghost use Rattle.std.specs.Prelude.{◌≡◌, ◌<◌, ◌≤◌, ◌==◌, ℕ, true, false, if◌then◌else◌, nat_lt};
ghost use Rattle.micro_word.specs.Lines.{AreLines, IsSlot, bytes_shown, bytes_taken, names, on_each_bit, place_of, place_on_bus};

use crate::bus::side_a;
use crate::layout::Fields;
use crate::statement::{AluOp, BusSource};
use mic_words::Machine;

/// The place that holds 0, for a bus that nothing drives.
pub const NOTHING: u8 = 13;

/// The place that nothing reads, for a slot without a destination.
pub const NOWHERE: u8 = 15;

/// What a word keeps on for a whole cycle. Places are those of a datapath: see `BusSource::place`.
#[derive(Clone, Copy, Debug, PartialEq, Eq)]
pub struct Lines {
    /// ENA, to each bit.
    pub ena: u32,
    /// INVA, to each bit.
    pub inva: u32,
    pub addr: u16,
    /// The places of what drives the A bus and the B bus.
    pub a: u8,
    pub b: u8,
    /// The places of two destinations.
    pub first: u8,
    pub second: u8,
    /// The place of a third destination, or 9.
    pub further: u8,
    /// How many bytes of its queue Mic-2 takes for the word: those of its operands, and one more for a dispatch.
    pub takes: u8,
}

impl BusSource {
    /// Its place: the registers stand at the places of their bits in the field C, and after them the fetched bytes.
    pub const fn place(self) -> u8
        ensures place { result ≡ place_of self }
        ensures within { result < 16 }
    {
        match self {
            BusSource::Mdr => 1,
            BusSource::Pc => 2,
            BusSource::Sp => 3,
            BusSource::Lv => 4,
            BusSource::Cpp => 5,
            BusSource::Tos => 6,
            BusSource::Opc => 7,
            BusSource::H => 8,
            BusSource::Mbr | BusSource::Mbr1 => 9,
            BusSource::Mbru | BusSource::Mbr1u => 10,
            BusSource::Mbr2 => 11,
            BusSource::Mbr2u => 12,
        }
    }
}

fn place_on_bus(source: Option<BusSource>) -> u8
    ensures place { result ≡ place_on_bus source }
    ensures within { result < 16 }
{
    match source {
        None => NOTHING,
        Some(source) => source.place(),
    }
}

fn on_each_bit(on: bool) -> u32
    ensures { result ≡ on_each_bit on }
{
    if on { 0xFFFF_FFFF } else { 0 }
}

/// Whether a field C names the register at a place.
pub fn is_named(c: u16, place: u8) -> bool
    requires { place < 16 }
    ensures { result ≡ names c place }
{
    (c >> place) % 2 == 1
}

/// The first place from there on that the field names, or 9.
fn first_named(c: u16, from: u8) -> u8
    requires { from ≤ 9 }
    ensures within { result ≤ 9 }
    ensures following { from ≤ result }
    ensures skipped { (place : ℕ) → from ≤ place → place < result → names c place ≡ false }
    ensures named { result < 9 → names c result ≡ true }
{
    let mut place = from;
    'places: while place < 9 && !is_named(c, place) {
        place += 1;
    }
    place
}

fn next_named(c: u16, place: u8) -> u8
    requires { place ≤ 9 }
    ensures within { result ≤ 9 }
    ensures skipped { (other : ℕ) → place < other → other < result → names c other ≡ false }
    ensures named { result < 9 → names c result ≡ true }
{
    if place == 9 {
        return 9;
    }
    first_named(c, place + 1)
}

fn slot(c: u16, place: u8) -> u8
    requires within { place ≤ 9 }
    requires named { place < 9 → names c place ≡ true }
    ensures slot { IsSlot c result }
    ensures same { place < 9 → result ≡ place }
{
    if place < 9 { place } else { NOWHERE }
}

/// How many bytes of the queue stand at a place.
fn bytes_shown(place: u8) -> u8
    ensures value { result ≡ bytes_shown place }
    ensures few { result < 3 }
{
    if place == 9 || place == 10 {
        1
    } else if place == 11 || place == 12 {
        2
    } else {
        0
    }
}

fn greater(a: u8, b: u8) -> u8
    ensures { result ≡ (if nat_lt a b then b else a) }
{
    if a < b { b } else { a }
}

fn dispatched(jam: u8) -> u8
    ensures value { result ≡ (if jam == 4 then 1 else 0) }
    ensures few { result < 2 }
{
    if jam == 4 { 1 } else { 0 }
}

/// How many bytes a word takes that names these places and has these bits.
fn bytes_taken(a: u8, b: u8, jam: u8) -> u8
    ensures { result ≡ bytes_taken a b jam }
{
    greater(bytes_shown(a), bytes_shown(b)) + dispatched(jam)
}

impl Lines {
    /// The lines of a word with these fields.
    pub fn of_fields(machine: Machine, f: &Fields) -> Lines
        ensures { AreLines machine f.now result }
    {
        let first = first_named(f.c, 0);
        let second = next_named(f.c, first);
        let further = next_named(f.c, second);
        let a = place_on_bus(side_a(machine, AluOp::of_gates(f.gates), f.a));
        let b = place_on_bus(BusSource::of_code(machine, f.b));
        Lines {
            ena: on_each_bit(f.gates / 8 % 2 == 1),
            inva: on_each_bit(f.gates / 2 % 2 == 1),
            addr: f.addr,
            a,
            b,
            first: slot(f.c, first),
            second: slot(f.c, second),
            further,
            takes: bytes_taken(a, b, f.jam),
        }
    }
}
