//! The accepted program that a file holds.

ghost use Rattle.std.specs.Prelude.{◌≡◌, ◌≤◌, true, length, IfOk, IfErr, OnOk};
ghost use Rattle.cli_programs.specs.Common.{most_bytes, IsMap, IsHad, IsRefusal, OverIfErr};
ghost use Rattle.cli_programs.specs.Program.{HasNoProgram, IsNoSource, IsOf, IsAcceptedProgram, IsRefusalByAll, IsRefusedProgram, IsSource, begins_image};

use cli_outside::{Outside, Refusal, Status};
use cli_program_texts::{image_reason, link_reason, source_reason, verify_reason};
use console_port::MemoryMap;
use ijvm_asm::parse_source;
use ijvm_image::{Image, read_image};
use ijvm_verifier::{VerifiedImage, verify};
use method_linker::link;
use mic_base::{Files, Sink, Source};
use std::alloc::Global;

fn begins_image(bytes: &[u8]) -> bool
    ensures { result ≡ begins_image bytes.now }
{
    matches!(bytes, [0x1D, ..])
}

/// The image of an image file.
fn image_of(alloc: Global, bytes: &[u8]) -> Result<Image, Refusal>
    requires { begins_image bytes.now ≡ true }
    ensures ok { IfOk result (IsOf bytes.now) }
    ensures err { IfErr result (IsRefusalByAll bytes.now) }
{
    match read_image(alloc, bytes) {
        Ok(image) => Ok(image),
        Err(error) => Err(Refusal::by(image_reason(error))),
    }
}

/// The image of a source.
pub(crate) fn assembled(alloc: Global, text: &[u8]) -> Result<Image, Refusal>
    requires { length text.now ≤ most_bytes }
    ensures ok { IfOk result (IsSource text.now) }
    ensures err { IfErr result (IsRefusal IsNoSource text.now) }
{
    let source = match parse_source(alloc, text) {
        Ok(source) => source,
        Err(error) => return Err(Refusal::by(source_reason(error))),
    };
    match link(alloc, &source) {
        Ok(image) => Ok(image),
        Err(error) => Err(Refusal::by(link_reason(error))),
    }
}

/// The image of a file, which is an image file or a source.
fn found_image(alloc: Global, bytes: &[u8]) -> Result<Image, Refusal>
    requires { length bytes.now ≤ most_bytes }
    ensures ok { IfOk result (IsOf bytes.now) }
    ensures err { IfErr result (IsRefusalByAll bytes.now) }
{
    if begins_image(bytes) {
        image_of(alloc, bytes)
    } else {
        assembled(alloc, bytes)
    }
}

/// The program of a file, if it is accepted for this map.
fn accepted_program(alloc: Global, bytes: &[u8], map: MemoryMap) -> Result<VerifiedImage, Refusal>
    requires few { length bytes.now ≤ most_bytes }
    requires map { IsMap map.stack_end }
    ensures ok { IfOk result (IsAcceptedProgram map bytes.now) }
    ensures err { IfErr result (IsRefusal (IsRefusedProgram map) bytes.now) }
{
    let image = found_image(alloc, bytes)?;
    match verify(alloc, image, map) {
        Ok(program) => Ok(program),
        Err(error) => Err(Refusal::by(verify_reason(error))),
    }
}

/// The accepted program that a file holds. Where there is none, it prints why and returns the status of that.
pub fn program_in_file<F: Files, S: Source, K: Sink, E: Sink>(
    alloc: Global,
    file: &str,
    map: MemoryMap,
    outside: &mut Outside<'_, F, S, K, E>,
) -> Result<VerifiedImage, Status>
    requires { IsMap map.stack_end }
    ensures had { IfOk result (IsHad (IsAcceptedProgram map) file.now outside.old.seen) }
    ensures same { OnOk result (outside.new ≡ outside.old) }
    ensures not_had { OverIfErr (HasNoProgram map file.now) outside.old outside.new result }
{
    let bytes = outside.read(alloc, file)?;
    match accepted_program(alloc, &bytes, map) {
        Ok(program) => Ok(program),
        Err(refusal) => Err(outside.refuse(file, refusal)),
    }
}
