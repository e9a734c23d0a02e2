//! What the words of a command line ask for is done.

ghost use Rattle.std.specs.Prelude.{map, string_bytes};
ghost use Rattle.cli_outside.specs.Outside.{Over};
ghost use Rattle.cli_check.specs.CheckEnds.{CheckEnds};
ghost use Rattle.cli_check.specs.Words.{asked_in};

use crate::judging::judge_file;
use crate::usage::{misused, not_judged};
use crate::words::{MachineName, read_words};
use cli_outside::{Outside, Status};
use mic_base::{Files, Sink, Source};
use std::alloc::Global;

/// Does what the words after the program's name ask for.
pub(crate) fn answer_words<F: Files, S: Source, K: Sink, E: Sink>(
    alloc: Global,
    words: &[String],
    outside: &mut Outside<'_, F, S, K, E>,
) -> Status
    ensures { Over (CheckEnds (asked_in (map string_bytes words.now))) outside.old outside.new result.0 }
{
    match read_words(words) {
        None => misused(outside.err),
        Some(request) => match request.machine {
            MachineName::Mic1 => judge_file(alloc, request.file, outside),
            MachineName::Mic2 => not_judged("mic2", outside.err),
            MachineName::Mic3 => not_judged("mic3", outside.err),
        },
    }
}
