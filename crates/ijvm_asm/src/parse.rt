//! A whole text: its lines, one by one, then what they make together.

ghost use Rattle.std.specs.Prelude.{◌≡◌, ◌<◌, ◌^◌, length, IfOk, IfErr, false};
ghost use Rattle.ijvm_asm.specs.Drafts.{is_memory};
ghost use Rattle.ijvm_asm.specs.Text.{IsRefused, SpellsProgram};

use crate::error::AsmError;
use crate::laws::reads_texts;
use crate::source::SourceReader;
use crate::whole::whole_program;
use ijvm_program::Program;
use source_text::read_lines;
use std::alloc::Global;

/// The program that the text spells, or the first refusal of the text: that of the first line with one, and where no
/// line has one, that of all lines together.
pub fn parse_source(alloc: Global, text: &[u8]) -> Result<Program, AsmError>
    requires { length text.now < 2 ^ 32 }
    ensures ok { IfOk result (SpellsProgram text.now) }
    ensures err { IfErr result (λ e. is_memory e ≡ false → IsRefused text.now e) }
{
    reads_texts();
    let mut reader = SourceReader::new(alloc);
    read_lines(&mut reader, text)?;
    whole_program(&reader)
}
