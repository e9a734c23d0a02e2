//! What a line does, and what it prints.

ghost use Rattle.std.specs.Prelude.{◌≡◌, ◌≢◌, ◌≤◌, ◌+◌, ◌^◌, Some, Ok, OnErr, IfOk};
ghost use Rattle.cli_session.specs.Prelude.{state_text, word_line};
ghost use Rattle.cli_rewind.specs.Lines.{back_text};
ghost use Rattle.cli_rewind.specs.Stand.{as_read};
ghost use Rattle.cli_rewind.specs.Moves.{ObeysBack, WasCutBy, WentBy};

use crate::moves::{go_back, go_forward};
use crate::table::Verb;
use crate::texts::{back_text, forward_text, refusal_text};
use cli_session::{Command, CommandError, state_text, word_text};
use mic_base::{Line, PlainSource, Sink, SinkFailed};
use mic_clock::{Clocked, End};
use mic_rewind::Rewind;

/// Goes forward, and returns the text of where that led.
fn micro<M: Clocked, K: Sink>(
    rewind: &mut Rewind<M>,
    times: u32,
    input: &mut PlainSource,
    out: &mut K,
) -> Result<Line, SinkFailed>
    requires cycles { rewind.old.board.counts.cycles + 2 ^ 32 ≤ 2 ^ 62 }
    requires well { rewind.old.board.end ≢ Some End.WriteFault }
    ensures went { IfOk result (WentBy M.state M.meaning K.held K.passed K.faults (as_read Verb.Micro times)
        rewind.old input.old out.old rewind.new input.new out.new) }
    ensures cut { OnErr result (WasCutBy M.state M.meaning K.held K.passed K.faults (as_read Verb.Micro times)
        rewind.old input.old out.old rewind.new input.new out.new) }
{
    let end = go_forward(rewind, times, input, out)?;
    Ok(forward_text(rewind, end))
}

/// A memory word at the cursor.
fn word<M: Clocked>(rewind: &Rewind<M>, at: u32) -> Line
    ensures { result ≡ word_line rewind.now.history.here.words at }
{
    word_text(at, rewind.peek(at).unwrap_or(0))
}

/// The registers at the cursor.
fn regs<M: Clocked>(rewind: &Rewind<M>) -> Line
    ensures { result ≡ state_text rewind.now.history.here.moment.registers }
{
    state_text(&rewind.registers())
}

/// Goes back, and returns the text of where that led.
fn back<M: Clocked>(rewind: &mut Rewind<M>, times: u32) -> Line
    ensures leads { ObeysBack M.state M.meaning times rewind.old result rewind.new }
    ensures board { rewind.new.board ≡ rewind.old.board }
    ensures depth { rewind.new.history.depth ≡ rewind.old.history.depth }
{
    let all = go_back(rewind, times);
    back_text(rewind, all)
}

/// Carries out a command.
fn obey<M: Clocked, K: Sink>(
    rewind: &mut Rewind<M>,
    command: Command<Verb>,
    input: &mut PlainSource,
    out: &mut K,
) -> Result<Line, SinkFailed>
    requires cycles { rewind.old.board.counts.cycles + 2 ^ 32 ≤ 2 ^ 62 }
    requires well { rewind.old.board.end ≢ Some End.WriteFault }
    ensures went { IfOk result (WentBy M.state M.meaning K.held K.passed K.faults (as_read command.verb command.number)
        rewind.old input.old out.old rewind.new input.new out.new) }
    ensures cut { OnErr result (WasCutBy M.state M.meaning K.held K.passed K.faults (as_read command.verb command.number)
        rewind.old input.old out.old rewind.new input.new out.new) }
{
    match command.verb {
        Verb::Micro => micro(rewind, command.number, input, out),
        Verb::Back => Ok(back(rewind, command.number)),
        Verb::Word => Ok(word(rewind, command.number)),
        Verb::Regs => Ok(regs(rewind)),
        Verb::Quit => Ok(Line::new()),
    }
}

/// Carries out a command, if there is one.
fn obey_one<M: Clocked, K: Sink>(
    rewind: &mut Rewind<M>,
    command: Option<Command<Verb>>,
    input: &mut PlainSource,
    out: &mut K,
) -> Result<Line, SinkFailed>
    requires cycles { rewind.old.board.counts.cycles + 2 ^ 32 ≤ 2 ^ 62 }
    requires well { rewind.old.board.end ≢ Some End.WriteFault }
    ensures went { IfOk result (WentBy M.state M.meaning K.held K.passed K.faults (Ok command)
        rewind.old input.old out.old rewind.new input.new out.new) }
    ensures cut { OnErr result (WasCutBy M.state M.meaning K.held K.passed K.faults (Ok command)
        rewind.old input.old out.old rewind.new input.new out.new) }
{
    match command {
        Some(command) => obey(rewind, command, input, out),
        None => Ok(Line::new()),
    }
}

/// Does what was read of a line.
pub(crate) fn follow<M: Clocked, K: Sink>(
    rewind: &mut Rewind<M>,
    read: Result<Option<Command<Verb>>, CommandError>,
    input: &mut PlainSource,
    out: &mut K,
) -> Result<Line, SinkFailed>
    requires cycles { rewind.old.board.counts.cycles + 2 ^ 32 ≤ 2 ^ 62 }
    requires well { rewind.old.board.end ≢ Some End.WriteFault }
    ensures went { IfOk result (WentBy M.state M.meaning K.held K.passed K.faults read
        rewind.old input.old out.old rewind.new input.new out.new) }
    ensures cut { OnErr result (WasCutBy M.state M.meaning K.held K.passed K.faults read
        rewind.old input.old out.old rewind.new input.new out.new) }
{
    match read {
        Ok(command) => obey_one(rewind, command, input, out),
        Err(error) => Ok(refusal_text(error)),
    }
}
