//! What holds of every text, and of every program that is printed.

ghost use Rattle.mal_parser.specs.Common.{Machine, IsReadAsSpelled, AtMostOneProgram, AtMostOneRefusal, NeverBoth};
ghost use Rattle.mal_parser.specs.ProgramText.{canonical_text, relined};
ghost use Rattle.mal_parser.specs.Program.{IsMalProgram, MalView};
ghost use Rattle.mal_parser.specs.Reading.{empty, parser, ReadsLines};
ghost use Rattle.mal_parser.specs.Text.{grammar, SpellsProgram};

use crate::source::SourceReader;
use mal_print::lines_spell_what_is_printed;

/// What the laws of the crates below say of one line.
pub(crate) fn reads_lines()
    ensures { ReadsLines }
{
    mal_tokens::reads_what_is_spelled();
    mal_line::reads_what_is_spelled();
}

/// A text is read as what it spells.
#[tactic(auto, using(crate::proofs::Outcome::agrees))]
pub(crate) fn reads_texts()
    ensures { (machine : Machine) → IsReadAsSpelled (grammar machine) parser (empty machine) }
{
    reads_lines();
    source_text::a_text_says_one_thing::<SourceReader>();
}

/// A text spells at most one program, has at most one refusal, and never has both.
pub fn reads_what_is_spelled()
    ensures one { (machine : Machine) → AtMostOneProgram (grammar machine) }
    ensures apart { (machine : Machine) → NeverBoth (grammar machine) }
    ensures first { (machine : Machine) → AtMostOneRefusal (grammar machine) }
{
    reads_texts();
}

/// The canonical text of a program spells that program, with the lines of that text as its line numbers.
pub fn canonical_text_spells_its_program()
    ensures { (p : MalView) → IsMalProgram p → SpellsProgram p.machine (canonical_text p) (relined p) }
{
    lines_spell_what_is_printed();
}
