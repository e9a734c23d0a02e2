//! The words of a memory, changed one at a time.

ghost use Rattle.std.specs.Prelude.{◌≡◌, Some};
ghost use Rattle.mic_rewind.specs.States.{redone, stored, undone};

use crate::kept_cycle::WrittenWord;

/// Stores a word, where there is memory.
fn store(memory: &mut Vec<u32>, at: u32, word: u32)
    ensures { memory.new.items ≡ stored at (Some word) memory.old.items }
{
    if let Some(place) = memory.get_mut(at as usize) {
        *place = word;
    }
}

/// Takes back what a cycle wrote.
pub fn undo(memory: &mut Vec<u32>, written: Option<WrittenWord>)
    ensures { memory.new.items ≡ undone written memory.old.items }
{
    if let Some(written) = written {
        store(memory, written.at, written.old);
    }
}

/// Writes again what a cycle wrote.
pub fn redo(memory: &mut Vec<u32>, written: Option<WrittenWord>)
    ensures { memory.new.items ≡ redone written memory.old.items }
{
    if let Some(written) = written {
        store(memory, written.at, written.new);
    }
}

/// Stores the word that a cycle left at an address, where there is one, and returns what that wrote.
pub fn take_over(memory: &mut Vec<u32>, at: u32, word: Option<u32>) -> Option<WrittenWord>
    ensures words { memory.new.items ≡ stored at word memory.old.items }
    ensures undoes { undone result memory.new.items ≡ memory.old.items }
    ensures redoes { redone result memory.old.items ≡ memory.new.items }
{
    let old = *memory.get(at as usize)?;
    let new = word?;
    store(memory, at, new);
    Some(WrittenWord { at, old, new })
}
