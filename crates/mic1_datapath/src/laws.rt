//! What the meaning of Mic-1 promises of statements.

ghost use Rattle.mic1_datapath.specs.Mic1.{StepsAsSpelled};

use mic_words::Machine;
use micro_word::statement_law;

/// The step of a valid statement's word is the microstep of the statement.
pub fn step_law()
    ensures { StepsAsSpelled }
{
    statement_law(Machine::Mic1);
}
