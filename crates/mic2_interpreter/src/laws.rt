//! What each instruction takes of Mic-2, with its stalls.

ghost use Rattle.ijvm_simulation.specs.Prelude.{RunsStall, LimitsStall};
ghost use Rattle.mic2_interpreter.specs.Stalls.{GroupStalls, BootStallsOnce, stalls_of};
ghost use Rattle.mic2_interpreter.specs.Interpretation.{mic2};

use crate::interpreter::Mic2Interpreter;
use ijvm_simulation::stalls_add_up;
use mic2_fetch_unit::queue_law;

/// How a run boots, and what every instruction takes. After the boot, whose one stall waits for the first word of
/// the text, only a call stalls: once, or twice where its method's entry is the last byte of a word.
pub fn stalls_law()
    ensures boots { BootStallsOnce }
    ensures takes { GroupStalls (λ i. Unit {0}) }
{
    queue_law();
}

/// So at each boundary of a run the clock has counted the stall of the boot and those of the calls, and no other; nor
/// has it counted another where the stack's end cuts the last instruction short.
pub fn runs_stall_at_calls()
    ensures boundaries { RunsStall mic2 1 stalls_of }
    ensures limit { LimitsStall mic2 1 stalls_of }
{
    stalls_law();
    stalls_add_up::<Mic2Interpreter>();
}
