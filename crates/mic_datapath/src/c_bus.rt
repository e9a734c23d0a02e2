//! The clock edge of the registers: the C bus goes to those that a word names, and then a word that was read arrives in MDR.

ghost use Rattle.std.specs.Prelude.{◌≡◌, ◌≢◌, ◌<◌, ◌≤◌, ℕ, slice_index};
ghost use Rattle.micro_word.specs.Prelude.{AreSlots};
ghost use Rattle.mic_datapath.specs.Places.{place_loaded, registers_at};
ghost use Rattle.mic_datapath.specs.Registers.{arrived, loaded};

use micro_word::{Lines, is_named};

/// What the buses reach by index: the registers by the places of their bits in the field C, the fetched bytes, 0, and a place that nothing reads.
pub type Places = [u32; 16];

const MDR: usize = 1;

/// What becomes of one register, before a word arrives.
pub fn port(c: u16, place: u8, value: u32, places: &Places) -> u32
    requires { place < 16 }
    ensures { result ≡ place_loaded c value places.now place }
{
    if is_named(c, place) {
        value
    } else {
        places[place as usize]
    }
}

/// Loads the named registers from a place on.
fn load_further(c: u16, from: u8, value: u32, places: &mut Places)
    ensures loaded { (k : ℕ) → from ≤ k → k < 9 → slice_index places.new k ≡ place_loaded c value places.old k }
    ensures before { (k : ℕ) → k < from → slice_index places.new k ≡ slice_index places.old k }
    ensures others { (k : ℕ) → 9 ≤ k → slice_index places.new k ≡ slice_index places.old k }
{
    'places: for place in from..9 {
        if is_named(c, place) {
            places[place as usize] = value;
        }
    }
}

/// Puts a value into the slots of a word's lines.
fn load(c: u16, lines: &Lines, value: u32, places: &mut Places)
    requires { AreSlots c lines.now.first lines.now.second lines.now.further }
    ensures loaded { (k : ℕ) → k < 9 → slice_index places.new k ≡ place_loaded c value places.old k }
    ensures others { (k : ℕ) → 9 ≤ k → k < 15 → slice_index places.new k ≡ slice_index places.old k }
{
    places[lines.first as usize] = value;
    places[lines.second as usize] = value;
    // Few words name a third.
    load_further(c, lines.further, value, places);
}

/// What a register becomes where a word arrives.
pub fn arrived(word: Option<u32>, there: u32) -> u32
    ensures { result ≡ arrived word there }
{
    match word {
        Some(word) => word,
        None => there,
    }
}

/// A word that was read becomes MDR, whatever the C bus put there.
pub fn arrive(word: Option<u32>, places: &mut Places)
    ensures mdr { slice_index places.new 1 ≡ arrived word (slice_index places.old 1) }
    ensures others { (k : ℕ) → k ≢ 1 → slice_index places.new k ≡ slice_index places.old k }
{
    if let Some(word) = word {
        places[MDR] = word;
    }
}

/// The registers at a clock edge, with the word that arrives if one does.
pub fn settle(c: u16, lines: &Lines, value: u32, arriving: Option<u32>, places: &mut Places)
    requires { AreSlots c lines.now.first lines.now.second lines.now.further }
    ensures registers { registers_at places.new ≡ loaded c value arriving (registers_at places.old) }
    ensures others { (k : ℕ) → 9 ≤ k → k < 15 → slice_index places.new k ≡ slice_index places.old k }
{
    load(c, lines, value, places);
    arrive(arriving, places);
}
