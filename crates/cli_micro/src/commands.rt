//! The commands, from the file that they read to their status.

ghost use Rattle.cli_micro.specs.Common.{canonical_text, listed_program, Over, PrintsOnOut};
ghost use Rattle.cli_outside.specs.Status as exits;
ghost use Rattle.cli_micro.specs.Answers.{MicroAnswers, PrintMicroAnswers};

use crate::listing::printed_text;
use crate::placing::made_of;
use cli_outside::{Outside, Status};
use mal_shipped::{shipped_text, shipped_texts_are_canonical};
use mic_base::{Files, Sink, Source};
use micro_word::Machine;
use std::alloc::Global;

/// Places the microprogram of a file, writes its store file, and then prints its addresses and words.
pub fn micro<F: Files, S: Source, K: Sink, E: Sink>(
    alloc: Global,
    mal: &str,
    store: &str,
    machine: Machine,
    outside: &mut Outside<'_, F, S, K, E>,
) -> Status
    ensures { Over (MicroAnswers machine store.now mal.now) outside.old outside.new result.0 }
{
    let bytes = match outside.read(alloc, mal) {
        Ok(bytes) => bytes,
        Err(status) => return status,
    };
    match made_of(alloc, machine, &bytes) {
        Ok(made) => outside.write(alloc, store, &made.file, &made.text),
        Err(refusal) => outside.refuse(mal, refusal),
    }
}

/// Prints the microprogram of a file in canonical text, or lists a store file.
pub fn print_micro<F: Files, S: Source, K: Sink, E: Sink>(
    alloc: Global,
    file: &str,
    machine: Machine,
    outside: &mut Outside<'_, F, S, K, E>,
) -> Status
    ensures { Over (PrintMicroAnswers machine file.now) outside.old outside.new result.0 }
{
    let bytes = match outside.read(alloc, file) {
        Ok(bytes) => bytes,
        Err(status) => return status,
    };
    match printed_text(alloc, machine, &bytes) {
        Ok(text) => outside.print(&text, Status::DONE),
        Err(refusal) => outside.refuse(file, refusal),
    }
}

/// Prints the microprogram that ships for a machine, in canonical text.
pub fn print_shipped<F: Files, S: Source, K: Sink, E: Sink>(
    machine: Machine,
    outside: &mut Outside<'_, F, S, K, E>,
) -> Status
    ensures { Over (PrintsOnOut (canonical_text (listed_program machine)) exits.done) outside.old outside.new result.0 }
{
    shipped_texts_are_canonical();
    outside.print(shipped_text(machine).as_bytes(), Status::DONE)
}
