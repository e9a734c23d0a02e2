//! A table of commands: the word of each, and what follows it.

ghost use Rattle.std.specs.Prelude.{◌≡◌, find, map, option_map};
ghost use Rattle.std.specs.Str.{bytes_eq};
ghost use Rattle.cli_session.specs.Table.{default_of, form_of, least_of, most_of, row_in};

/// What follows a command's word.
#[derive(Clone, Copy, Debug, PartialEq, Eq)]
pub enum Argument {
    Nothing,
    /// How often, from 1 to 1,000,000; once where it is left out.
    Count,
    /// A byte address of the text, from 0 to 65,535.
    TextAddress,
    /// The address of a memory word.
    MemoryWord,
}

/// A row of the table.
#[derive(Clone, Copy)]
pub struct CommandRow<V> {
    pub verb: V,
    pub word: &'static str,
    pub argument: Argument,
}

const MOST_COUNT: u32 = 1_000_000;

const LAST_TEXT_ADDRESS: u32 = 65_535;

fn first_with<V: Copy>(rows: &[CommandRow<V>], word: &[u8]) -> Option<CommandRow<V>>
    ensures { result ≡ find (λ row. bytes_eq row.word.now word.now) rows.now }
{
    rows.iter().copied().find(|row| row.word.as_bytes() == word)
}

/// The row of the command with that word.
#[tactic(auto, using(crate::proofs::Finding::first_is_row))]
pub(crate) fn row_of<V: Copy>(rows: &[CommandRow<V>], word: &[u8]) -> Option<CommandRow<V>>
    ensures { option_map form_of result ≡ row_in word.now (map form_of rows.now) }
{
    first_with(rows, word)
}

impl Argument {
    /// The least number that the argument may be.
    pub fn least(self) -> u32
        ensures { result ≡ least_of self }
    {
        match self {
            Argument::Count => 1,
            _ => 0,
        }
    }

    /// The greatest number that the argument may be, over a memory of this many words.
    pub fn most(self, words: u32) -> u32
        ensures { result ≡ most_of words self }
    {
        match self {
            Argument::Nothing => 0,
            Argument::Count => MOST_COUNT,
            Argument::TextAddress => LAST_TEXT_ADDRESS,
            Argument::MemoryWord => words.saturating_sub(1),
        }
    }

    /// The number of an argument that is left out, if it may be.
    pub fn default(self) -> Option<u32>
        ensures { result ≡ default_of self }
    {
        match self {
            Argument::Nothing => Some(0),
            Argument::Count => Some(1),
            Argument::TextAddress => None,
            Argument::MemoryWord => None,
        }
    }
}
