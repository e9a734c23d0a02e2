//! A text says one thing.

ghost use Rattle.source_text.specs.Prelude.{IsReadAsSpelled, AtMostOneProgram, AtMostOneRefusal, NeverBoth};
ghost use Rattle.ijvm_asm.specs.Adding.{parser, ReadsLines};
ghost use Rattle.ijvm_asm.specs.Source.{empty};
ghost use Rattle.ijvm_asm.specs.Text.{grammar};

use crate::source::SourceReader;

/// What the laws of the crates below say of one line.
fn reads_lines()
    ensures { ReadsLines }
{
    ijvm_tokens::reads_what_is_spelled();
    ijvm_line::reads_what_is_spelled();
}

/// A text is read as what it spells.
pub(crate) fn reads_texts()
    ensures { IsReadAsSpelled grammar parser empty }
{
    reads_lines();
    source_text::a_text_says_one_thing::<SourceReader>();
}

/// A text spells at most one program, or else has at most one first refusal, and never both.
pub fn a_text_says_one_thing()
    ensures one_program { AtMostOneProgram grammar }
    ensures one_refusal { AtMostOneRefusal grammar }
    ensures not_both { NeverBoth grammar }
{
    reads_texts();
}
