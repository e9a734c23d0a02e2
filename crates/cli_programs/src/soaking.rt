//! The run of a generated program.

ghost use Rattle.std.specs.Prelude.{◌≤◌, ℕ};
ghost use Rattle.cli_outside.specs.Prelude.{Over};
ghost use Rattle.cli_programs.specs.SoakEnds.{IsGenerated, SoakEnds};

use crate::summary::summary;
use cli_outside::{Outside, Status};
use cli_run_texts::status_of;
use ijvm_simulation::{Interpreter, run_image};
use ijvm_soak::soak_image;
use ijvm_verifier::VerifiedImage;
use mic_base::{Files, PlainSink, PlainSource, Sink, Source};
use std::alloc::Global;

/// The cycles after which a run ends at the next boundary.
const BOUND: u64 = 10_000_000;

/// Clocks the program of a seed and a size, 1 to 9,000, and prints the summary of its run.
pub fn soak<I: Interpreter, F: Files, S: Source, K: Sink, E: Sink>(
    alloc: Global,
    seed: u32,
    size: u16,
    outside: &mut Outside<'_, F, S, K, E>,
) -> Status
where
    I::Machine: Drop,
    requires { size ≤ 9000 }
    ensures { Over (SoakEnds I.Machine.state I.Machine.meaning I.Machine.IsReady I.IsShipped I.entry I.timing seed size) outside.old outside.new result.0 }
{
    match soak_image(alloc, seed, size) {
        Ok(program) => run_soak::<I, F, S, K, E>(alloc, &program, outside),
        Err(_) => outside.no_memory(),
    }
}

/// Clocks the generated program, and prints the summary of its run.
fn run_soak<I: Interpreter, F: Files, S: Source, K: Sink, E: Sink>(
    alloc: Global,
    program: &VerifiedImage,
    outside: &mut Outside<'_, F, S, K, E>,
) -> Status
where
    I::Machine: Drop,
    ensures { (seed size : ℕ) → IsGenerated seed size program.now →
        Over (SoakEnds I.Machine.state I.Machine.meaning I.Machine.IsReady I.IsShipped I.entry I.timing seed size) outside.old outside.new result.0 }
{
    let mut source = PlainSource::new(Vec::new(alloc));
    let mut sink = PlainSink::new();
    match run_image::<I, PlainSource, PlainSink>(alloc, program, BOUND, &mut source, &mut sink) {
        Ok(board) => {
            let end = board.ended().unwrap();
            let size_of_text = program.image().text().len();
            let line = summary(size_of_text, end, &board.counts(), board.registers().tos);
            outside.print(line.bytes(), status_of(end))
        }
        Err(_) => outside.no_memory(),
    }
}
