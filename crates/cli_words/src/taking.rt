//! Takes the words of a command by a row of the table.

ghost use Rattle.std.specs.Prelude.{◌≡◌, ◌<◌, IfOk, codes, length, string_bytes, true, false};
ghost use Rattle.std.specs.List.{All};
ghost use Rattle.std.specs.Str.{IsUtf8};
ghost use Rattle.clap.specs.Words.{app_of, rule_of};
ghost use Rattle.cli_words.specs.Reading.{reads};
ghost use Rattle.cli_words.specs.Table.{IsTableRow, form_for};
ghost use Rattle.cli_words.specs.Taking.{TakesAs, app_for, bytes_of, form_of, rule_in, rules_in, texts_of, with_rules};

use crate::error::WordsError;
use crate::table::Row;
use clap::builder::ValueParser;
use clap::error::ErrorKind;
use clap::{Arg, ArgAction, ArgMatches, Command};
use std::alloc::{AllocError, Global};

/// What a name of a row stands for.
#[derive(Clone, Copy)]
pub enum Kind {
    /// A plain word, and whether it is required.
    Plain(bool),
    Valued,
    Flag,
}

fn arg_of<'a>(alloc: Global, kind: Kind, name: &'a str) -> Arg<'a>
    ensures rule { rule_of result ≡ rule_in kind name.entry.now }
    ensures local { result.global ≡ false }
{
    let arg = Arg::new(alloc, name);
    match kind {
        Kind::Plain(is_required) => arg
            .action(ArgAction::Set)
            .value_parser(ValueParser::NonEmptyString)
            .required(is_required),
        Kind::Valued => arg
            .long(name)
            .action(ArgAction::Set)
            .value_parser(ValueParser::NonEmptyString),
        Kind::Flag => arg.long(name).action(ArgAction::SetTrue),
    }
}

fn with_each<'a>(
    alloc: Global,
    command: Command<'a>,
    kind: Kind,
    names: &[&'a str],
) -> Result<Command<'a>, AllocError>
    ensures { IfOk result (λ r. app_of r ≡ with_rules (app_of command.entry) (rules_in kind (texts_of names.now))) }
{
    let mut command = command;
    for name in names {
        command = command.arg(arg_of(alloc, kind, name))?;
    }
    Ok(command)
}

fn command_of<'a>(alloc: Global, row: &Row) -> Result<Command<'a>, AllocError>
    ensures { IfOk result (λ r. app_of r ≡ app_for (codes "mic") (form_of row.now)) }
{
    let command = Command::new(alloc, "mic")
        .no_binary_name(true)
        .disable_help_flag(true)
        .disable_version_flag(true);
    let command = with_each(alloc, command, Kind::Plain(row.is_whole), row.plain)?;
    let command = with_each(alloc, command, Kind::Valued, row.options)?;
    with_each(alloc, command, Kind::Flag, row.flags)
}

// A `String` is UTF-8, but a clause does not know that of the texts in a slice.
fn note_text(word: &String)
    ensures { IsUtf8 (string_bytes word.now) }
{
    let _ = word.as_str();
}

fn note_texts(words: &[String])
    ensures { All (λ word. IsUtf8 (string_bytes word)) words.now }
{
    for word in words {
        note_text(word);
    }
}

/// Takes the words after a command's name by its row.
fn take_words<'a>(
    alloc: Global,
    row: &Row,
    words: &'a [String],
) -> Result<ArgMatches<'a>, WordsError>
    requires { length (form_of row.now).plain < 100 }
    ensures { TakesAs (form_of row.now) (reads (form_of row.now) (bytes_of words.entry.now)) result }
{
    note_texts(words);
    let command = match command_of(alloc, row) {
        Ok(command) => command,
        Err(_) => return Err(WordsError::OutOfMemory),
    };
    match command.try_get_matches_from(words) {
        Ok(matches) => Ok(matches),
        Err(error) => match error.kind() {
            ErrorKind::OutOfMemory => Err(WordsError::OutOfMemory),
            _ => Err(WordsError::Usage),
        },
    }
}

/// Takes the words after the name of a command.
pub(crate) fn take_command<'a>(
    alloc: Global,
    row: &Row,
    words: &'a [String],
) -> Result<ArgMatches<'a>, WordsError>
    requires { IsTableRow row.now }
    ensures { TakesAs (form_for row.now.command) (reads (form_for row.now.command) (bytes_of words.entry.now)) result }
{
    take_words(alloc, row, words)
}
