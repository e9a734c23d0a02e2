//! What holds of every compiled text.

ghost use Rattle.std.specs.Prelude.{◌≡◌, ℕ, List};
ghost use Rattle.tiny_compiler.specs.Common.{Machine, ImageView, VerifiedView, Accepts, places_of, IsLaidOut, IsCodeOf, IsCoded, IsNamed, Program, TinyError};
ghost use Rattle.console_port.specs.Prelude.{IsMap};
ghost use Rattle.tiny_compiler.specs.Compiled.{HasNoCode, IsCompiled, RunsAsSpelled};

use tiny_code::{methods_are_the_others, written_code_stands};
use tiny_notes::laid_out_programs_are_accepted;
use tiny_parser::{programs_are_named, texts_have_one_reading};
use tiny_runs::images_run_as_meant;

/// A law: in the image of its code a program is laid out.
pub fn coded_programs_are_laid_out()
    ensures { (p : Program) (image : ImageView) → IsNamed p → IsCodeOf p image → IsLaidOut image (places_of p) p }
{
    methods_are_the_others();
    written_code_stands();
}

/// A law: the image of a program's code is accepted, on either map.
pub fn coded_programs_are_accepted()
    ensures { (image : ImageView) (end : ℕ) → IsCoded image → IsMap end → Accepts image end }
{
    coded_programs_are_laid_out();
    laid_out_programs_are_accepted();
}

/// A law: on either machine the runs of a compiled text are as its program means.
pub fn compiled_programs_run_as_meant()
    ensures { (text : List ℕ) (p : Program) (v : VerifiedView) (machine : Machine) → RunsAsSpelled text p v machine }
{
    texts_have_one_reading();
    programs_are_named();
    coded_programs_are_laid_out();
    images_run_as_meant();
}

/// A law: a text compiles to at most one program, has at most one refusal, and never has both.
pub fn texts_compile_to_one_program()
    ensures one_program { (text : List ℕ) (v w : VerifiedView) → IsCompiled text v → IsCompiled text w → v ≡ w }
    ensures not_both { (text : List ℕ) (v : VerifiedView) (e : TinyError) → IsCompiled text v → HasNoCode text e → ⊥ }
    ensures one_refusal { (text : List ℕ) (d e : TinyError) → HasNoCode text d → HasNoCode text e → d ≡ e }
{
    texts_have_one_reading();
}
