//! That machines which interpret IJVM agree.

ghost use Rattle.ijvm_simulation.specs.Interpretation.{interpretation};
ghost use Rattle.ijvm_simulation.specs.Agreement.{RunsAgree};

use crate::interpreter::Interpreter;

/// Runs of one verified image over one known input, on two machines that interpret IJVM, end alike with the same
/// output, where neither meets its bound.
pub fn interpreters_agree<I: Interpreter, J: Interpreter>()
    ensures { RunsAgree (interpretation I.Machine.state I.Machine.meaning I.Machine.IsReady I.IsShipped I.entry I.timing)
        (interpretation J.Machine.state J.Machine.meaning J.Machine.IsReady J.IsShipped J.entry J.timing) }
{}
