//! The lines that both commands print: an address and its word first, a newline last.

ghost use Rattle.std.specs.Prelude.{◌≡◌, ◌≤◌, ◌<◌, ◌+◌, ◌++◌, ◌∷◌, [], length, OnOk, IsTrue};
ghost use Rattle.micro_word.specs.Prelude.{is_canonical, is_valid, statement_of, IsStore};
ghost use Rattle.cli_micro.specs.Texts.{word_digits, word_text};

use mic_base::Line;
use micro_word::{Machine, Placed, Store, decode1, decode2, word_law};
use std::alloc::AllocError;

/// As many digits as the machine's words need.
fn word_digits(machine: Machine) -> u8
    ensures { result ≡ word_digits machine }
{
    match machine {
        Machine::Mic1 => 9,
        Machine::Mic2 => 10,
    }
}

/// Appends an address and its word.
#[tactic(auto, using(crate::proofs::Words::word_fits))]
pub(crate) fn word_text(line: &mut Line, store: &Store, address: u16)
    requires inside { address < 512 }
    requires room { length line.old + 15 ≤ 512 }
    ensures text { line.new ≡ line.old ++ word_text store.now address }
    ensures len { length line.new ≤ length line.old + 15 }
{
    line.hex(u64::from(address), 3);
    line.text(" ");
    line.hex(store.word(address), word_digits(store.machine()));
    line.text(" ");
}

/// The statement whose word it is.
pub(crate) fn statement_of(machine: Machine, word: u64) -> Placed
    requires { IsTrue (is_canonical machine word) }
    ensures value { result ≡ statement_of machine word }
    ensures valid { IsTrue (is_valid machine result) }
{
    word_law(machine);
    let decoded = match machine {
        Machine::Mic1 => decode1(word),
        Machine::Mic2 => decode2(word),
    };
    decoded.unwrap()
}

/// A control store has 512 canonical words.
pub(crate) fn store_law(store: &Store)
    ensures { IsStore store.now }
{
    store.machine();
}

/// Adds a line to a text.
pub(crate) fn add_line(text: &mut Vec<u8>, line: &Line) -> Result<(), AllocError>
    ensures { OnOk result (text.new.items ≡ text.old.items ++ (line.now ++ 10 ∷ [])) }
{
    text.extend_from_slice(line.bytes())?;
    text.push(b'\n')?;
    Ok(())
}
