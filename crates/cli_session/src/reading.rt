//! How a line of a session is read as a command.

ghost use Rattle.std.specs.Prelude.{◌≡◌, ◌≤◌, length, map};
ghost use Rattle.std.specs.List.{prefix_len};
ghost use Rattle.mic_base.specs.Prelude.{number_of};
ghost use Rattle.cli_session.specs.Commands.{after_word, command_in, first_word, is_blank, is_word_byte, ranged, unindented, with_argument};
ghost use Rattle.cli_session.specs.Table.{form_of};

use crate::table::{Argument, CommandRow, row_of};
use mic_base::Number;

/// A command of a session.
#[derive(Clone, Copy, Debug, PartialEq, Eq)]
pub struct Command<V> {
    pub verb: V,
    /// Its number, or 0 where it has none.
    pub number: u32,
}

/// Why a line is no command.
#[derive(Clone, Copy, Debug, PartialEq, Eq)]
pub enum CommandError {
    /// The line has more than 255 bytes, or its words are those of no command.
    BadCommand,
    /// The command's number cannot be read, or is out of its range.
    BadNumber,
}

/// The most bytes of a line.
pub const MOST_LINE: usize = 255;

fn is_blank(byte: u8) -> bool
    ensures { result ≡ is_blank byte }
{
    byte == b' ' || byte == b'\t'
}

/// How many blanks stand at the front.
fn blanks(line: &[u8]) -> usize
    ensures value { result ≡ prefix_len is_blank line.now }
    ensures small { result ≤ length line.now }
{
    line.iter().take_while(|byte| is_blank(**byte)).count()
}

/// How many bytes of a word stand at the front.
fn word_bytes(line: &[u8]) -> usize
    ensures value { result ≡ prefix_len is_word_byte line.now }
    ensures small { result ≤ length line.now }
{
    line.iter().take_while(|byte| !is_blank(**byte)).count()
}

/// A line without the blanks at its front.
fn unindented(line: &[u8]) -> &[u8]
    ensures { result.now ≡ unindented line.now }
{
    let start = blanks(line);
    &line[start..]
}

/// The first word of a line, empty where it has none.
fn first_word(line: &[u8]) -> &[u8]
    ensures { result.now ≡ first_word line.now }
{
    let line = unindented(line);
    let end = word_bytes(line);
    &line[..end]
}

/// What follows the first word of a line.
fn after_word(line: &[u8]) -> &[u8]
    ensures { result.now ≡ after_word line.now }
{
    let line = unindented(line);
    let end = word_bytes(line);
    &line[end..]
}

/// The number that a word reads as, where it is in this range.
fn ranged(word: &[u8], least: u32, most: u32) -> Option<u32>
    ensures { result ≡ ranged least most (number_of word.now) }
{
    match Number::read(word) {
        Ok(value) => {
            if i64::from(least) <= value && value <= i64::from(most) {
                Some(value as u32)
            } else {
                None
            }
        }
        Err(_) => None,
    }
}

/// The command with the argument that this word is, where it is one.
fn with_argument<V: Copy>(
    row: CommandRow<V>,
    word: &[u8],
    words: u32,
) -> Result<Option<Command<V>>, CommandError>
    ensures { result ≡ with_argument words (form_of row) word.now }
{
    let CommandRow { verb, argument, .. } = row;
    if word.is_empty() {
        return match argument.default() {
            Some(number) => Ok(Some(Command { verb, number })),
            None => Err(CommandError::BadCommand),
        };
    }
    if argument == Argument::Nothing {
        return Err(CommandError::BadCommand);
    }
    match ranged(word, argument.least(), argument.most(words)) {
        Some(number) => Ok(Some(Command { verb, number })),
        None => Err(CommandError::BadNumber),
    }
}

/// Reads a line by a table: None where the line has no word.
#[tactic(auto, unfolding(crate::specs::Commands::command_in))]
pub fn read_command<V: Copy>(
    rows: &[CommandRow<V>],
    line: &[u8],
    words: u32,
) -> Result<Option<Command<V>>, CommandError>
    ensures { result ≡ command_in (map form_of rows.now) words line.now }
{
    if line.len() > MOST_LINE {
        return Err(CommandError::BadCommand);
    }
    let name = first_word(line);
    if name.is_empty() {
        return Ok(None);
    }
    let rest = after_word(line);
    let surplus = first_word(after_word(rest));
    if !surplus.is_empty() {
        return Err(CommandError::BadCommand);
    }
    match row_of(rows, name) {
        Some(row) => with_argument(row, first_word(rest), words),
        None => Err(CommandError::BadCommand),
    }
}
