//! Why a text is no Tiny program, or has no code.

ghost use Rattle.std.specs.Prelude.{◌≡◌};
ghost use Rattle.cli_programs.specs.TinyRefusals.{tiny_reason};

use cli_outside::of_line;
use cli_program_texts::link_reason;
use method_linker::LinkError;
use mic_base::Line;
use tiny_compiler::TinyError;

/// Why a text is no Tiny program or has no code, unless memory ran out.
pub fn tiny_reason(error: TinyError) -> Option<Line>
    ensures { result ≡ tiny_reason error }
{
    match error {
        TinyError::BadToken(line) => Some(of_line(line, "bad token")),
        TinyError::BadNumber(line) => Some(of_line(line, "bad number")),
        TinyError::BadSyntax(line) => Some(of_line(line, "bad syntax")),
        TinyError::TooDeep(line) => Some(of_line(line, "nested too deep")),
        TinyError::DuplicateName(line) => Some(of_line(line, "name used twice")),
        TinyError::UnknownName(line) => Some(of_line(line, "unknown name")),
        TinyError::BadCall(line) => Some(of_line(line, "bad call")),
        TinyError::ReturnInMain(line) => Some(of_line(line, "return in main")),
        TinyError::TooManyNames(line) => Some(of_line(line, "too many names")),
        TinyError::NoMain => Some(Line::of(": no main")),
        TinyError::PoolTooLong(count) => link_reason(LinkError::PoolTooLong(count)),
        TinyError::TextTooLong(size) => link_reason(LinkError::TextTooLong(size)),
        TinyError::JumpTooFar(line, far) => link_reason(LinkError::JumpTooFar(line, far)),
        TinyError::OutOfMemory => None,
    }
}
