//! Why a file holds no accepted program.

ghost use Rattle.std.specs.Prelude.{◌≡◌, ◌++◌, codes};
ghost use Rattle.std.specs.Fmt.{decimal};
ghost use Rattle.cli_program_texts.specs.Refusals.{image_reason, link_reason, of_byte, source_reason, verify_reason};

use crate::parts::{at_byte, number_between, numbered_at};
use cli_outside::of_line;
use ijvm_asm::AsmError;
use ijvm_image::ImageError;
use ijvm_verifier::VerifyError;
use method_linker::LinkError;
use mic_base::Line;

/// Why a file is no image file, unless memory ran out.
pub fn image_reason(error: ImageError) -> Option<Line>
    ensures { result ≡ image_reason error }
{
    match error {
        ImageError::Truncated(place) => Some(Line::numbered(": truncated at ", place as u64)),
        ImageError::BadMagic => Some(Line::of(": bad magic")),
        ImageError::BadOrigin(value) => Some(Line::addressed(": bad origin ", value)),
        ImageError::BadSize(value) => Some(Line::numbered(": bad size ", u64::from(value))),
        ImageError::Trailing(place) => Some(Line::numbered(": trailing bytes at ", place as u64)),
        ImageError::OutOfMemory => None,
    }
}

/// Why a text is no source program, unless memory ran out.
pub fn source_reason(error: AsmError) -> Option<Line>
    ensures { result ≡ source_reason error }
{
    match error {
        AsmError::BadToken(line) => Some(of_line(line, "bad token")),
        AsmError::BadLine(line) => Some(of_line(line, "bad line")),
        AsmError::BadNumber(line) => Some(of_line(line, "bad number")),
        AsmError::OutOfRange(line) => Some(of_line(line, "out of range")),
        AsmError::DuplicateName(line) => Some(of_line(line, "name used twice")),
        AsmError::TooManyNames(line) => Some(of_line(line, "too many names")),
        AsmError::MissingEnd(line) => Some(of_line(line, "section is not ended")),
        AsmError::UnknownName(line) => Some(of_line(line, "unknown name")),
        AsmError::NoMain => Some(Line::of(": no main")),
        AsmError::OutOfMemory => None,
    }
}

/// Why a source program has no image, unless memory ran out.
#[tactic(auto, using(mic_base::specs::Decimals::decimal_lengths))]
pub fn link_reason(error: LinkError) -> Option<Line>
    ensures { result ≡ link_reason error }
{
    match error {
        LinkError::PoolTooLong(count) => Some(number_between(": ", u64::from(count), " constants")),
        LinkError::TextTooLong(size) => {
            Some(number_between(": ", u64::from(size), " bytes of text"))
        }
        LinkError::JumpTooFar(line, far) => {
            let mut line = of_line(line, "jump of ");
            line.signed(i64::from(far));
            line.text(" is too far");
            Some(line)
        }
        LinkError::OutOfMemory => None,
    }
}

fn unset_local(at: u32, index: u16) -> Line
    ensures { result ≡ of_byte at ++ codes " local " ++ decimal index ++ codes " unset" }
{
    let mut line = numbered_at(at, " local ", u64::from(index));
    line.text(" unset");
    line
}

fn too_few_arguments(at: u32, have: u32, need: u32) -> Line
    ensures { result ≡ of_byte at ++ codes " has " ++ decimal have ++ codes " of " ++ decimal need ++ codes " arguments" }
{
    let mut line = numbered_at(at, " has ", u64::from(have));
    line.number(" of ", u64::from(need));
    line.text(" arguments");
    line
}

fn depth_differs(at: u32, less: u32, more: u32) -> Line
    ensures { result ≡ of_byte at ++ codes " depth " ++ decimal less ++ codes " and " ++ decimal more }
{
    let mut line = numbered_at(at, " depth ", u64::from(less));
    line.number(" and ", u64::from(more));
    line
}

/// Why an image is not accepted, unless memory ran out.
pub fn verify_reason(error: VerifyError) -> Option<Line>
    ensures { result ≡ verify_reason error }
{
    match error {
        VerifyError::BadCode(at) => Some(at_byte(at, " bad code")),
        VerifyError::FallsOff(at) => Some(at_byte(at, " falls off")),
        VerifyError::BadTarget(at) => Some(at_byte(at, " bad target")),
        VerifyError::Overlap(at) => Some(at_byte(at, " overlap")),
        VerifyError::BadConstant(at, index) => {
            Some(numbered_at(at, " no constant ", u64::from(index)))
        }
        VerifyError::BadEntry(index) => Some(number_between(
            ": constant ",
            u64::from(index),
            " is no method",
        )),
        VerifyError::BadHeader(at) => Some(at_byte(at, " bad header")),
        VerifyError::LinkSlot(at) => Some(at_byte(at, " link word")),
        VerifyError::BadLocal(at, index) => Some(numbered_at(at, " no local ", u64::from(index))),
        VerifyError::UnsetLocal(at, index) => Some(unset_local(at, index)),
        VerifyError::TooFewArguments(at, have, need) => Some(too_few_arguments(at, have, need)),
        VerifyError::Underflow(at) => Some(at_byte(at, " underflow")),
        VerifyError::DepthDiffers(at, less, more) => Some(depth_differs(at, less, more)),
        VerifyError::ReturnInMain(at) => Some(at_byte(at, " return in main")),
        VerifyError::MainFrame(count) => {
            Some(number_between(": ", u64::from(count), " locals in main"))
        }
        VerifyError::OutOfMemory => None,
    }
}
