//! The microprogram of a file is judged.

ghost use Rattle.std.specs.Prelude.{◌≡◌};
ghost use Rattle.mic_words.specs.declared.machine.Machine.TheVariants as machines;
ghost use Rattle.mic1_checker.specs.Checked.{IsChecked};
ghost use Rattle.cli_outside.specs.Outside.{Over};
ghost use Rattle.cli_check.specs.CheckEnds.{IsJudged, Judges};

use crate::finding::not_shown_text;
use crate::table::proved_text;
use cli_clocked::{Microprogram, placed_microprogram};
use cli_outside::{Outside, Status};
use mal_shipped::Loaded;
use mic_base::{Files, Sink, Source};
use mic1_checker::{Verdict, check};
use micro_word::Machine;
use std::alloc::Global;

/// The status of a microprogram that is not shown.
const NOT_SHOWN: Status = Status(1);

/// Judges a microprogram, and prints what came of that.
fn judge_program<F: Files, S: Source, K: Sink, E: Sink>(
    alloc: Global,
    micro: Microprogram,
    outside: &mut Outside<'_, F, S, K, E>,
) -> Status
    requires { micro.program.machine ≡ machines.Mic1 }
    ensures { Over (IsJudged micro.program) outside.old outside.new result.0 }
{
    let Microprogram { program, loaded } = micro;
    let Loaded {
        store,
        placement,
        entry,
    } = loaded;
    match check(alloc, store, entry) {
        Ok(Verdict::Proved(checked)) => match proved_text(alloc, checked.costs()) {
            Ok(text) => outside.print(&text, Status::DONE),
            Err(_) => outside.no_memory(),
        },
        Ok(Verdict::NotShown(reason)) => {
            match not_shown_text(alloc, &reason, &program, &placement) {
                Ok(text) => outside.print(&text, NOT_SHOWN),
                Err(_) => outside.no_memory(),
            }
        }
        Err(_) => outside.no_memory(),
    }
}

/// Judges the microprogram of a file. Where there is none, it prints why.
pub(crate) fn judge_file<F: Files, S: Source, K: Sink, E: Sink>(
    alloc: Global,
    file: &str,
    outside: &mut Outside<'_, F, S, K, E>,
) -> Status
    ensures { Over (Judges file.now) outside.old outside.new result.0 }
{
    let bytes = match outside.read(alloc, file) {
        Ok(bytes) => bytes,
        Err(status) => return status,
    };
    match placed_microprogram(alloc, Machine::Mic1, &bytes) {
        Ok(micro) => judge_program(alloc, micro, outside),
        Err(refusal) => outside.refuse(file, refusal),
    }
}
