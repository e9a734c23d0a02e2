//! The top call: the words, the files and the streams of one call of the program, and the cause of each answer.

ghost use Rattle.std.specs.Prelude.{ℕ, Option, map, string_bytes};
ghost use Rattle.cli_call.specs.Common.{Asked, request_of, OutsideView, files_of, outside_view, sink_of, source_of};
ghost use Rattle.cli_call.specs.CallEnds.{CallEnds};
ghost use Rattle.cli_call.specs.Answers.{HasItsCause, IsAnswer};

use crate::top_call::answer_words;
use cli_outside::{Outside, Status, close};
use ijvm_simulation::shipped_runs_end_as_defined;
use mal_shipped::loaded_programs_are_shipped;
use mic_base::{Files, Sink, Source};
use mic3_pipeline::Mic3Interpreter;
use shipped_microcode::{Mic1Interpreter, Mic2Interpreter};
use std::alloc::Global;

/// Each status that a call ends with has its cause, and no other comes.
pub fn each_answer_has_its_cause()
    ensures { (asks : Option Asked) (old new : OutsideView) (status : ℕ) → HasItsCause asks old new status }
{
    loaded_programs_are_shipped();
    shipped_runs_end_as_defined::<Mic1Interpreter>();
    shipped_runs_end_as_defined::<Mic2Interpreter>();
    shipped_runs_end_as_defined::<Mic3Interpreter>();
}

/// Does what the words after the program's name ask for.
pub fn mic_main<F: Files, S: Source, K: Sink, E: Sink>(
    alloc: Global,
    words: &[String],
    files: &mut F,
    console: &mut S,
    out: &mut K,
    err: &mut E,
) -> Status
    ensures ends { CallEnds (request_of (map string_bytes words.now))
        (outside_view (files_of F.contents F.faults files.old) (source_of S.left S.faults console.old)
        (sink_of K.held K.passed K.faults out.old) (sink_of E.held E.passed E.faults err.old))
        (outside_view (files_of F.contents F.faults files.new) (source_of S.left S.faults console.new)
        (sink_of K.held K.passed K.faults out.new) (sink_of E.held E.passed E.faults err.new))
        result.0 }
    ensures answer { IsAnswer (request_of (map string_bytes words.now))
        (outside_view (files_of F.contents F.faults files.old) (source_of S.left S.faults console.old)
        (sink_of K.held K.passed K.faults out.old) (sink_of E.held E.passed E.faults err.old))
        (outside_view (files_of F.contents F.faults files.new) (source_of S.left S.faults console.new)
        (sink_of K.held K.passed K.faults out.new) (sink_of E.held E.passed E.faults err.new))
        result.0 }
{
    each_answer_has_its_cause();
    let mut outside = Outside::new(files, console, out, err);
    let status = answer_words(alloc, words, &mut outside);
    let (files, console, out, err) = outside.into_parts();
    close(files, console, out, err);
    status
}
