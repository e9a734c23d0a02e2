//! The summary of a generated program's run.

ghost use Rattle.std.specs.Prelude.{◌≡◌};
ghost use Rattle.cli_programs.specs.SoakSummary.{soak_summary};

use cli_run_texts::clocked_head;
use mic_base::Line;
use mic_clock::{Counts, End};

/// The size of the text, the report's first three lines, and TOS as a signed number.
#[tactic(auto, using(mic_base::specs::Decimals::decimal_lengths))]
pub(crate) fn summary(size: usize, end: End, counts: &Counts, tos: u32) -> Line
    ensures { result ≡ soak_summary size end counts.now tos }
{
    let mut line = Line::numbered("text ", size as u64);
    line.text("\n");
    clocked_head(&mut line, end, counts);
    line.text("tos ");
    line.signed(i64::from(tos.cast_signed()));
    line.text("\n");
    line
}
