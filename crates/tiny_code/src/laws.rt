//! What holds of every program, and of every image in which one is laid out.

ghost use Rattle.std.specs.Prelude.{ℕ, List, All};
ghost use Rattle.std.specs.List.{Contains};
ghost use Rattle.tiny_code.specs.Common.{ImageView, Instr, IsInstr, HasLines};
ghost use Rattle.tiny_tree.specs.Prelude.{Function, Program};
ghost use Rattle.tiny_code.specs.Code.{Places, main_code, method_code, methods};
ghost use Rattle.tiny_code.specs.Image.{statements_lines};
ghost use Rattle.tiny_code.specs.Laid.{Holds, IsLaidOut};
ghost use Rattle.tiny_code.specs.Laws.{IsOther, StandsBetween};

use ijvm_instr::read_instructions_are_whole;

/// The methods of a program are its functions but main.
pub fn methods_are_the_others()
    ensures complete { (p : Program) (f : ℕ) (g : Function) → IsOther p f g → Contains (methods p) (f, g) }
    ensures sound { (p : Program) (f : ℕ) (g : Function) → Contains (methods p) (f, g) → IsOther p f g }
{}

/// An image in which a program is laid out has all that a run of the program needs.
pub fn laid_out_programs_hold()
    ensures { (image : ImageView) (p : Places) (program : Program) → IsLaidOut image p program → Holds image p program }
{}

/// Code that is written in a text stands there.
pub fn written_code_stands()
    ensures { (code : List Instr) (before after : List ℕ) → All IsInstr code → StandsBetween before after code }
{
    read_instructions_are_whole();
}

/// Each jump of the code of a function has one line, that of its `if` or `while`.
pub fn jumps_have_lines()
    ensures main { (p : Places) (g : Function) → HasLines (statements_lines g.body) (main_code p g) }
    ensures method { (p : Places) (g : Function) → HasLines (statements_lines g.body) (method_code p g) }
{}
