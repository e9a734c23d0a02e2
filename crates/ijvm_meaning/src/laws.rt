//! What holds of every run of the definition.

ghost use Rattle.std.specs.Prelude.{ℕ, List};
ghost use Rattle.ijvm_image.specs.Prelude.{ImageView, IsImage};
ghost use Rattle.ijvm_meaning.specs.Frames.{State, AreWords, start_of};
ghost use Rattle.ijvm_meaning.specs.Run.{TimedImage, Point, Passes, EndsOnce, PassesItsEnd, EndsAlike, StepsLead, GoesOnInWords, EndsInWords, PassesInWords};

use ijvm_instr::read_instructions_are_whole;

/// A run has one end, at a boundary that it passes, and it is the end of each boundary that it passes.
pub fn runs_end_once()
    ensures one { (p : TimedImage) (bound : ℕ) (from : Point) → EndsOnce p bound from }
    ensures last { (p : TimedImage) (bound : ℕ) (from : Point) → PassesItsEnd p bound from }
    ensures passed { (p : TimedImage) (bound : ℕ) (from at : Point) → EndsAlike p bound from at }
    ensures states { (p : TimedImage) (bound : ℕ) (from at : Point) → Passes p bound from at → StepsLead p from at }
{}

/// The words of every state that a run of an image comes to are words, whatever its input is.
pub fn runs_keep_words()
    ensures start { (main_locals : ℕ) (input : List ℕ) → AreWords (start_of main_locals input) }
    ensures goes { (image : ImageView) (stack_end : ℕ) (s to : State) → IsImage image → GoesOnInWords image stack_end s to }
    ensures limits { (image : ImageView) (stack_end : ℕ) (s to : State) → IsImage image → EndsInWords image stack_end s to }
    ensures passes { (p : TimedImage) (bound main_locals : ℕ) → IsImage p.image → PassesInWords p bound main_locals }
{
    read_instructions_are_whole();
}
