//! `compile TINY IMAGE`: the image of a Tiny program is written to a file.

ghost use Rattle.cli_outside.specs.Prelude.{Over};
ghost use Rattle.cli_programs.specs.TinyAnswers.{Compiles};

use crate::tiny::program_in_tiny;
use cli_outside::{Outside, Status};
use cli_program_texts::sizes_of;
use ijvm_image::write_image;
use mic_base::{Files, Sink, Source};
use std::alloc::Global;

/// Compiles the Tiny program, writes its image, and prints the image's sizes.
pub fn compile_file<F: Files, S: Source, K: Sink, E: Sink>(
    alloc: Global,
    tiny: &str,
    target: &str,
    outside: &mut Outside<'_, F, S, K, E>,
) -> Status
    ensures { Over (Compiles target.now tiny.now) outside.old outside.new result.0 }
{
    let program = match program_in_tiny(alloc, tiny, outside) {
        Ok(program) => program,
        Err(status) => return status,
    };
    let image = program.image();
    match write_image(alloc, image) {
        Ok(bytes) => outside.write(alloc, target, &bytes, sizes_of(image).bytes()),
        Err(_) => outside.no_memory(),
    }
}
