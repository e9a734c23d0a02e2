//! An image's text and pool, written into memory.

ghost use Rattle.std.specs.Prelude.{◌≡◌, ◌+◌, ◌*◌, ◌<◌, ◌≤◌, ℕ, length, slice_index};
ghost use Rattle.console_port.specs.Loading.{text_word, HasTextWords, IsLoaded, StaysOutside};

use crate::map::{FRAME, MOST_POOL, MOST_TEXT, POOL};
use crate::pages::Pages;

fn byte_or_zero(text: &[u8], at: usize) -> u32
    ensures value { result ≡ slice_index text.now at }
    ensures small { result < 256 }
{
    if at < text.len() { text[at] as u32 } else { 0 }
}

/// Word `at` of a text, the most significant byte first, with zeros after its end.
fn text_word(text: &[u8], at: usize) -> u32
    requires { at < POOL }
    ensures { result ≡ text_word text.now at }
{
    let front = 256 * byte_or_zero(text, 4 * at) + byte_or_zero(text, 4 * at + 1);
    let back = 256 * byte_or_zero(text, 4 * at + 2) + byte_or_zero(text, 4 * at + 3);
    65_536 * front + back
}

/// Writes the text from word 0 on.
fn write_text(memory: &mut Pages, text: &[u8])
    requires limit { length text.now ≤ MOST_TEXT }
    requires fits { POOL ≤ length memory.old }
    ensures size { length memory.new ≡ length memory.old }
    ensures text { (at : ℕ) → 4 * at < length text.now → slice_index memory.new at ≡ text_word text.now at }
    ensures others { (at : ℕ) → length text.now ≤ 4 * at → slice_index memory.new at ≡ slice_index memory.old at }
{
    for at in 0..text.len().div_ceil(4) {
        memory.set(at as u32, text_word(text, at));
    }
}

/// Writes the pool from its place on.
fn write_pool(memory: &mut Pages, pool: &[u32])
    requires limit { length pool.now ≤ MOST_POOL }
    requires fits { POOL + length pool.now ≤ length memory.old }
    ensures size { length memory.new ≡ length memory.old }
    ensures pool { (k : ℕ) → k < length pool.now → slice_index memory.new (POOL + k) ≡ slice_index pool.now k }
    ensures others { StaysOutside POOL (POOL + length pool.now) memory.old memory.new }
{
    for k in 0..pool.len() {
        memory.set(POOL + k as u32, pool[k]);
    }
}

/// Writes an image.
pub fn write_image(memory: &mut Pages, text: &[u8], pool: &[u32])
    requires text { length text.now ≤ MOST_TEXT }
    requires pool { length pool.now ≤ MOST_POOL }
    requires memory { FRAME ≤ length memory.old }
    ensures loaded { IsLoaded text.now pool.now memory.old memory.new }
    ensures text { HasTextWords text.now memory.new }
{
    write_text(memory, text);
    write_pool(memory, pool);
    memory.holds_words();
}
