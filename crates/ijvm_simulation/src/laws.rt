//! What holds of every interpreter, and of every run of one, no matter what clocks it.

ghost use Rattle.std.specs.Prelude.{ℕ};
ghost use Rattle.ijvm_meaning.specs.Prelude.{TimedImage, Point, Passes};
ghost use Rattle.ijvm_simulation.specs.Simulates.{IsCounted};
ghost use Rattle.ijvm_simulation.specs.Starts.{EndsAsDefined};
ghost use Rattle.ijvm_simulation.specs.Stalls.{StallsAddUp, CutShort};

use crate::interpreter::Interpreter;
use ijvm_meaning::runs_keep_words;
use verifier_facts::accepted_images_keep_sound;

/// The boundaries that are counted from the first one are those that the definition's run passes.
pub fn counted_boundaries_are_passed()
    ensures passed { (p : TimedImage) (bound : ℕ) (from at : Point) → IsCounted p bound from at → Passes p bound from at }
    ensures counted { (p : TimedImage) (bound : ℕ) (from at : Point) → Passes p bound from at → IsCounted p bound from at }
{}

/// A run over the store that ships, from its reset over a verified image, ends as the definition's run where no fault
/// cuts it. So it is never adrift, and never out of the memory map.
pub fn shipped_runs_end_as_defined<I: Interpreter>()
    ensures { EndsAsDefined I.Machine.state I.Machine.meaning I.IsShipped I.entry I.timing }
{
    accepted_images_keep_sound();
    runs_keep_words();
    I::law();
}

/// At each boundary of a run from its reset the clock has counted the stalls of the boot and those of the
/// instructions passed, and no other, where the boot and each instruction stall as often as `stalls_of` has it.
pub fn stalls_add_up<I: Interpreter>()
    ensures boundaries { StallsAddUp I.Machine.meaning I.Machine.IsReady I.IsShipped I.entry I.timing }
    ensures limit { CutShort I.Machine.meaning I.Machine.IsReady I.IsShipped I.entry I.timing }
{
    accepted_images_keep_sound();
    runs_keep_words();
    I::law();
}
