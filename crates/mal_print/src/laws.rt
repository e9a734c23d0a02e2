//! What holds of every canonical line.

ghost use Rattle.mal_print.specs.Lines.{FallbacksAreReadBack, FixesAreReadBack, StatementsAreReadBack};

use mic_base::hex_is_read_back;

/// A canonical line spells what it was printed from.
#[tactic(auto, using(crate::proofs::Stated::statement_said, crate::proofs::Stated::fallback_said, crate::proofs::Stated::fix_said))]
pub fn lines_spell_what_is_printed()
    ensures statements { StatementsAreReadBack }
    ensures fallbacks { FallbacksAreReadBack }
    ensures fixes { FixesAreReadBack }
{
    hex_is_read_back();
}
