//! The top call: the words, the files and the streams of one call of the program.

ghost use Rattle.std.specs.Prelude.{map, string_bytes};
ghost use Rattle.cli_outside.specs.Outside.{files_of, outside_view, sink_of, source_of};
ghost use Rattle.cli_check.specs.CheckEnds.{CheckEnds};
ghost use Rattle.cli_check.specs.Words.{asked_in};

use crate::top_call::answer_words;
use cli_outside::{Outside, Status, close};
use mic_base::{Files, Sink, Source};
use std::alloc::Global;

/// Does what the words after the program's name ask for. The console is left as it is.
pub fn check_main<F: Files, S: Source, K: Sink, E: Sink>(
    alloc: Global,
    words: &[String],
    files: &mut F,
    console: &mut S,
    out: &mut K,
    err: &mut E,
) -> Status
    ensures { CheckEnds (asked_in (map string_bytes words.now))
        (outside_view (files_of F.contents F.faults files.old) (source_of S.left S.faults console.old)
        (sink_of K.held K.passed K.faults out.old) (sink_of E.held E.passed E.faults err.old))
        (outside_view (files_of F.contents F.faults files.new) (source_of S.left S.faults console.new)
        (sink_of K.held K.passed K.faults out.new) (sink_of E.held E.passed E.faults err.new))
        result.0 }
{
    let mut outside = Outside::new(files, console, out, err);
    let status = answer_words(alloc, words, &mut outside);
    let (files, console, out, err) = outside.into_parts();
    close(files, console, out, err);
    status
}
