//! From a text to its program.

ghost use Rattle.std.specs.Prelude.{◌≡◌, ◌<◌, ◌^◌, length, IfOk, IfErr, Ok, Err, false};
ghost use Rattle.mal_parser.specs.Program.{MalView};
ghost use Rattle.mal_parser.specs.Text.{Answers, IsRefused, is_memory, SpellsProgram};

use crate::error::MalError;
use crate::laws::{reads_lines, reads_texts};
use crate::program::MalProgram;
use crate::resolve::resolved_program;
use crate::source::SourceReader;
use micro_word::Machine;
use source_text::{Reader, read_lines};
use std::alloc::Global;

fn read(alloc: Global, machine: Machine, text: &[u8]) -> Result<MalProgram, MalError>
    requires { length text.now < 2 ^ 32 }
    ensures ok { IfOk result (SpellsProgram machine text.now) }
    ensures err { IfErr result (λ e. is_memory e ≡ false → IsRefused machine text.now e) }
{
    reads_lines();
    reads_texts();
    let mut reader = SourceReader::new(alloc, machine);
    read_lines(&mut reader, text)?;
    resolved_program(&reader)
}

/// The program that the text spells, or the first refusal of the text: that of the first line with one or, where no
/// line has one, that of all lines together.
pub fn parse_mal(alloc: Global, machine: Machine, text: &[u8]) -> Result<MalProgram, MalError>
    requires { length text.now < 2 ^ 32 }
    ensures ok { IfOk result (SpellsProgram machine text.now) }
    ensures err { IfErr result (λ e. is_memory e ≡ false → IsRefused machine text.now e) }
    ensures spelled { (p : MalView) → SpellsProgram machine text.now p → Answers result (Ok p) }
    ensures refused { (e : MalError) → IsRefused machine text.now e → Answers result (Err e) }
{
    reads_texts();
    read(alloc, machine, text)
}
