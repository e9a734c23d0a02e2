//! The lines of a cache. A block of four words belongs to one line: that of its number modulo the number of lines.

ghost use Rattle.std.specs.Prelude.{◌==◌, ◌≡◌, ◌<◌, ◌%◌, ◌*◌, ◌+◌, ◌^◌, ℕ, List, Some, None, IfSome, length, map, slice_index, slice_set, is_some};
ghost use Rattle.mem_cache.specs.Lines.{AreLines, IsLineOf, block_in};
ghost use Rattle.mem_cache.specs.Tally.{has_block};

use console_port::Bus;
use std::alloc::Global;

/// A block and its words.
#[derive(Clone, Copy, Debug, PartialEq, Eq)]
pub struct CacheLine {
    pub block: u32,
    pub words: [u32; 4],
}

/// The words of a block of memory.
pub(crate) fn words_of(bus: &Bus, block: u32) -> [u32; 4]
    requires memory { 4 * block + 3 < length bus.now.words }
    requires small { block < 2 ^ 30 }
    ensures words { (k : ℕ) → k < 4 → slice_index result k ≡ slice_index bus.now.words (4 * block + k) }
    ensures len { length result ≡ 4 }
{
    let first = 4 * block;
    [
        bus.word(first),
        bus.word(first + 1),
        bus.word(first + 2),
        bus.word(first + 3),
    ]
}

/// The line of a block, where it holds that block.
pub(crate) fn line_of(lines: &Vec<Option<CacheLine>>, block: u32) -> Option<CacheLine>
    requires { 0 < length lines.now.items }
    ensures line { IfSome result (IsLineOf lines.now.items block) }
    ensures held { is_some result ≡ has_block (map block_in lines.now.items) block }
{
    let index = block as usize % lines.len();
    match lines[index] {
        Some(line) if line.block == block => Some(line),
        _ => None,
    }
}

/// Puts a block into its line.
pub(crate) fn hold(lines: &mut Vec<Option<CacheLine>>, line: CacheLine)
    requires { 0 < length lines.old.items }
    ensures { lines.new.items ≡ slice_set lines.old.items (line.block % length lines.old.items) (Some line) }
{
    let index = line.block as usize % lines.len();
    lines[index] = Some(line);
}

/// Changes a word of memory also in the line that holds its block, where one does.
pub(crate) fn change(lines: &mut Vec<Option<CacheLine>>, at: u32, value: u32)
    requires { 0 < length lines.old.items }
    ensures blocks { map block_in lines.new.items ≡ map block_in lines.old.items }
    ensures lines { (ws : List ℕ) → AreLines ws lines.old.items → AreLines (slice_set ws at value) lines.new.items }
{
    let held = line_of(lines, at / 4);
    if let Some(line) = held {
        let mut words = line.words;
        words[(at % 4) as usize] = value;
        hold(
            lines,
            CacheLine {
                block: line.block,
                words,
            },
        );
    }
}
