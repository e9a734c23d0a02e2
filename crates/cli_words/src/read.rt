//! What the words of a command line ask for.

ghost use Rattle.std.specs.Prelude.{◌≡◌, IfOk, IfSome, map, string_bytes};
ghost use Rattle.std.specs.Option.{option_map};
ghost use Rattle.clap.specs.Matches.{first_value, found_of};
ghost use Rattle.cli_words.specs.Words.{AnswersAs, HasLimits, asked, asked_by, request_of, takes_mic3};

use crate::error::WordsError;
use crate::options::{
    DEFAULT_BOUND, DEFAULT_DEPTH, MOST_BLOCKS, MOST_CYCLES, MOST_DEPTH, MOST_LINES, MOST_SEED,
    is_true, map_in, number_in, processor_in, word_in,
};
use crate::request::Request;
use crate::table::{CommandName, named};
use crate::taking::take_command;
use clap::ArgMatches;
use std::alloc::Global;

/// Whether Mic-3 may be named: for `run`, with the microprogram that ships.
fn takes_mic3(command: CommandName, micro: Option<&str>) -> bool
    ensures { result ≡ takes_mic3 command (option_map (λ micro. micro.now) micro.entry) }
{
    match (command, micro) {
        (CommandName::Run, None) => true,
        _ => false,
    }
}

/// What a command asks for, or None where a value is not one of its name's.
fn request_in<'a>(command: CommandName, matches: &ArgMatches<'a>) -> Option<Request<&'a str>>
    ensures limits { IfSome result HasLimits }
    ensures asks { option_map asked result ≡ asked_by command (first_value (found_of matches.now)) }
{
    let micro = matches.get_str("micro");
    let seed = number_in(matches.get_str("SEED"), 0, 0, MOST_SEED)?;
    let size = number_in(matches.get_str("SIZE"), 1, 1, MOST_BLOCKS)?;
    let lines = number_in(matches.get_str("LINES"), 1, 1, MOST_LINES)?;
    let processor = processor_in(takes_mic3(command, micro), matches.get_str("machine"))?;
    let bound = number_in(matches.get_str("bound"), DEFAULT_BOUND, 0, MOST_CYCLES)?;
    let depth = number_in(matches.get_str("depth"), DEFAULT_DEPTH, 1, MOST_DEPTH)?;
    let map = map_in(matches.get_str("map"))?;
    Some(Request {
        command,
        file: word_in(matches.get_str("FILE")),
        target: word_in(matches.get_str("TARGET")),
        seed: seed as u32,
        size: size as u16,
        lines: lines as u16,
        processor,
        bound,
        micro,
        input: matches.get_str("input"),
        depth: depth as u32,
        map,
        buses: is_true(matches.get_str("buses")),
    })
}

/// Reads the words after the program's name.
pub fn read_words<'a>(alloc: Global, words: &'a [String]) -> Result<Request<&'a str>, WordsError>
    ensures limits { IfOk result HasLimits }
    ensures asks { AnswersAs (request_of (map string_bytes words.entry.now)) result }
{
    let [command, rest @ ..] = words else {
        return Err(WordsError::Usage);
    };
    let Some(row) = named(command.as_str()) else {
        return Err(WordsError::Usage);
    };
    let matches = take_command(alloc, &row, rest)?;
    match request_in(row.command, &matches) {
        Some(request) => Ok(request),
        None => Err(WordsError::Usage),
    }
}
