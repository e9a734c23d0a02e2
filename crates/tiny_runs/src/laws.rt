//! What holds of the runs of every image in which a Tiny program is laid out.

ghost use Rattle.std.specs.Prelude.{ℕ, List};
ghost use Rattle.ijvm_image.specs.Prelude.{ImageView};
ghost use Rattle.mic_words.specs.declared.machine.Machine.{Machine};
ghost use Rattle.ijvm_meaning.specs.Prelude.{timing_of};
ghost use Rattle.tiny_tree.specs.Prelude.{Program, IsNamed};
ghost use Rattle.tiny_code.specs.Prelude.{Places, IsLaidOut};
ghost use Rattle.tiny_runs.specs.AsMeant.{Advances};
ghost use Rattle.tiny_runs.specs.Growing.{GrowsWithTurns};
ghost use Rattle.tiny_runs.specs.Performs.{Performs};

use ijvm_meaning::runs_end_once;
use tiny_code::laid_out_programs_hold;

/// An image in which a program is laid out, and whose runs never get stuck, does what the program means.
pub fn images_run_as_meant()
    ensures as_meant { (t : Program) (p : Places) (image : ImageView) → IsNamed t → IsLaidOut image p t → Performs image t }
    ensures machines { (machine : Machine) → Advances (timing_of machine) }
{
    laid_out_programs_hold();
    runs_end_once();
}

/// A program means one thing: with more turns, what has ended stays so, and the output only grows.
pub fn meanings_grow()
    ensures { (p : Program) (input : List ℕ) (n : ℕ) → GrowsWithTurns p input n }
{}
