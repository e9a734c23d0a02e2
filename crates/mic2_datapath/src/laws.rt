//! What the meaning of Mic-2 promises of statements.

ghost use Rattle.mic2_datapath.specs.Mic2.{StepsAsSpelled};

use mic_words::Machine;
use micro_word::statement_law;

/// The step of a valid statement's word is the microstep of the statement.
pub fn step_law()
    ensures { StepsAsSpelled }
{
    statement_law(Machine::Mic2);
}
