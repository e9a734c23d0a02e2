//! The program that a Tiny file compiles to.

ghost use Rattle.std.specs.Prelude.{◌≡◌, ◌≤◌, length, IfOk, IfErr, OnOk};
ghost use Rattle.cli_programs.specs.Common.{most_bytes, IsHad, IsNotHad, IsRefusal, OverIfErr, IsCompiled};
ghost use Rattle.cli_programs.specs.TinyRefusals.{IsRefusedTiny};

use crate::tiny_refusals::tiny_reason;
use cli_outside::{Outside, Refusal, Status};
use ijvm_verifier::VerifiedImage;
use mic_base::{Files, Sink, Source};
use std::alloc::Global;
use tiny_compiler::compile;

/// The program that a text compiles to.
fn compiled(alloc: Global, text: &[u8]) -> Result<VerifiedImage, Refusal>
    requires { length text.now ≤ most_bytes }
    ensures ok { IfOk result (IsCompiled text.now) }
    ensures err { IfErr result (IsRefusal IsRefusedTiny text.now) }
{
    match compile(alloc, text) {
        Ok(program) => Ok(program),
        Err(error) => Err(Refusal::by(tiny_reason(error))),
    }
}

/// The program that a Tiny file compiles to. Where there is none, it prints why and returns the status of that.
pub fn program_in_tiny<F: Files, S: Source, K: Sink, E: Sink>(
    alloc: Global,
    tiny: &str,
    outside: &mut Outside<'_, F, S, K, E>,
) -> Result<VerifiedImage, Status>
    ensures had { IfOk result (IsHad IsCompiled tiny.now outside.old.seen) }
    ensures same { OnOk result (outside.new ≡ outside.old) }
    ensures not_had { OverIfErr (IsNotHad IsRefusedTiny tiny.now) outside.old outside.new result }
{
    let text = outside.read(alloc, tiny)?;
    match compiled(alloc, &text) {
        Ok(program) => Ok(program),
        Err(refusal) => Err(outside.refuse(tiny, refusal)),
    }
}
