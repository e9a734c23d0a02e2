//! `assemble SOURCE IMAGE`: the image of a source is written to a file.

ghost use Rattle.cli_outside.specs.Prelude.{Over};
ghost use Rattle.cli_programs.specs.Answers.{Assembles};

use crate::program::assembled;
use cli_outside::{Outside, Status};
use cli_program_texts::sizes_of;
use ijvm_image::write_image;
use mic_base::{Files, Sink, Source};
use std::alloc::Global;

/// Reads the source, writes its image, and prints the image's sizes.
pub fn assemble_file<F: Files, S: Source, K: Sink, E: Sink>(
    alloc: Global,
    source: &str,
    target: &str,
    outside: &mut Outside<'_, F, S, K, E>,
) -> Status
    ensures { Over (Assembles target.now source.now) outside.old outside.new result.0 }
{
    let text = match outside.read(alloc, source) {
        Ok(text) => text,
        Err(status) => return status,
    };
    let image = match assembled(alloc, &text) {
        Ok(image) => image,
        Err(refusal) => return outside.refuse(source, refusal),
    };
    match write_image(alloc, &image) {
        Ok(bytes) => outside.write(alloc, target, &bytes, sizes_of(&image).bytes()),
        Err(_) => outside.no_memory(),
    }
}
