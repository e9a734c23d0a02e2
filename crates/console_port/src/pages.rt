//! The memory's words, kept in pages: a page gets a frame of its own when it is first written.

ghost use Rattle.std.specs.Prelude.{◌≡◌, ◌≢◌, ◌+◌, ◌^◌, ◌++◌, ◌<◌, ◌≤◌, ℕ, IfOk, IsTrue, ◌↔◌, length, replicate, slice_get, slice_index, slice_set};
ghost use Rattle.std.specs.Vec.{vec_capacity};
ghost use Rattle.console_port.specs.Pages.{ArePaged, empty_frame, HasRoom, KeepsWords};

use std::alloc::{AllocError, Global};
use std::marker::Model;

/// The words of a page.
pub const PAGE: usize = 1024;

/// A memory of words. The first frame stays 0, and every page without a frame of its own reads it.
#[derive(Drop)]
pub struct Pages {
    size: usize,
    /// Where the frame of each page begins.
    table: Vec<usize>,
    /// The frames made so far, with room for one for each page.
    frames: Vec<u32>,
}

impl Model for Pages {
    ghost use Rattle.std.specs.Prelude.{ℕ, List};
    ghost use Rattle.std.specs.Vec.{vec_capacity};
    ghost use Rattle.console_port.specs.Pages.{ArePaged, HasRoom, words_of};

    ghost Value = { List ℕ };

    ghost view = { λ p. words_of p.table.items p.frames.items p.size };

    ghost invariant = { λ p. ArePaged p.table.items p.frames.items p.size × HasRoom p.table.items (vec_capacity p.frames) };
}

impl Pages {
    /// A memory of `size` words, all 0. No page has a frame.
    pub fn new(alloc: Global, size: u32) -> Result<Pages, AllocError>
        ensures { IfOk result (λ pages. pages ≡ replicate size 0) }
    {
        let size = size as usize;
        let pages = size.div_ceil(PAGE);
        let mut frames = Vec::with_capacity(alloc, PAGE * (pages + 1))?;
        frames.resize(PAGE, 0)?;
        Ok(Pages {
            size,
            table: vec![in alloc; 0; pages]?,
            frames,
        })
    }

    /// Whether there is a word at this address.
    pub fn has(&self, at: u32) -> bool
        ensures { IsTrue result ↔ (at < length self.now) }
    {
        (at as usize) < self.size
    }

    /// The word there.
    pub fn word(&self, at: u32) -> u32
        requires { at < length self.now }
        ensures { result ≡ slice_index self.now at }
    {
        let at = at as usize;
        self.frames[self.table[at / PAGE] + at % PAGE]
    }

    /// The word there, or none past the end.
    pub fn get(&self, at: u32) -> Option<u32>
        ensures { result ≡ slice_get self.now at }
    {
        if self.has(at) {
            Some(self.word(at))
        } else {
            None
        }
    }

    /// Each word is below 2^32, as its type has it.
    pub fn holds_words(&self)
        ensures { (at : ℕ) → slice_index self.now at < 2 ^ 32 }
    {
        are_words(&self.frames);
    }

    /// Stores a word.
    pub fn set(&mut self, at: u32, value: u32)
        requires { at < length self.old }
        ensures { self.new ≡ slice_set self.old at value }
    {
        let at = at as usize;
        let start = frame_of(&mut self.table, &mut self.frames, at / PAGE);
        self.frames[start + at % PAGE] = value;
    }
}

/// Each is below 2^32, as its type has it.
fn are_words(words: &[u32])
    ensures { (at : ℕ) → slice_index words.now at < 2 ^ 32 }
{}

/// Where the frame of a page begins. A page without one gets one.
fn frame_of(table: &mut [usize], frames: &mut Vec<u32>, page: usize) -> usize
    requires page { page < length table.old }
    requires room { HasRoom table.old (vec_capacity frames.old) }
    requires paged { (size : ℕ) × ArePaged table.old frames.old.items size }
    ensures frame { result ≡ slice_index table.new page }
    ensures own { result ≢ 0 }
    ensures capacity { vec_capacity frames.old ≤ vec_capacity frames.new }
    ensures paged { (size : ℕ) → ArePaged table.old frames.old.items size → ArePaged table.new frames.new.items size }
    ensures words { KeepsWords table.old frames.old.items table.new frames.new.items }
{
    if table[page] == 0 {
        add_frame(table, frames, page);
    }
    table[page]
}

/// Makes a frame for the page.
#[cold]
#[inline(never)]
fn add_frame(table: &mut [usize], frames: &mut Vec<u32>, page: usize)
    requires page { page < length table.old }
    requires room { length frames.old.items + 1024 ≤ vec_capacity frames.old }
    ensures table { table.new ≡ slice_set table.old page (length frames.old.items) }
    ensures frames { frames.new.items ≡ frames.old.items ++ empty_frame }
    ensures capacity { vec_capacity frames.old ≤ vec_capacity frames.new }
{
    let start = frames.len();
    table[page] = start;
    frames.resize(start + PAGE, 0).unwrap();
}
