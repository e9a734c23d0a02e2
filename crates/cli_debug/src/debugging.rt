//! What does the lines of a debugger.

ghost use Rattle.std.specs.Prelude.{◌≡◌, IfOk, OnOk, OnErr};
ghost use Rattle.cli_debug.specs.Debugging.{HasGone, IsCutInLine};
ghost use Rattle.cli_debug.specs.Stand.{is_quit, is_quit_reply};

use cli_outside::Outside;
use cli_session::LineSession;
use mic_base::{Files, PlainSource, Sink, SinkFailed, Source};
use mic_clock::Clocked;
use mic_debugger::{Reply, Session, SessionFault};

/// A session, and the input of its program.
#[derive(Drop)]
pub(crate) struct Debugging<M: Clocked> {
    pub(crate) session: Session<M>,
    pub(crate) input: PlainSource,
}

fn is_quit_reply(reply: Reply) -> bool
    ensures { result ≡ is_quit_reply reply }
{
    match reply {
        Reply::Quit => true,
        _ => false,
    }
}

/// Does a line.
fn answer_line<M: Clocked, F: Files, S: Source, K: Sink, E: Sink>(
    session: &mut Session<M>,
    line: &[u8],
    input: &mut PlainSource,
    outside: &mut Outside<'_, F, S, K, E>,
) -> Result<Reply, SessionFault>
    ensures quits { IfOk result (λ reply. is_quit_reply reply ≡ is_quit session.old.listing.memory line.now) }
    ensures done { OnOk result (HasGone M.state M.meaning line.now session.old input.old outside.old session.new input.new outside.new) }
    ensures broken { OnErr result (IsCutInLine M.state M.meaning line.now session.old input.old outside.old outside.new) }
    ensures console { outside.new.seen.console ≡ outside.old.seen.console }
    ensures names { outside.new.names ≡ outside.old.names }
{
    session.command(line, input, outside.out, outside.err)
}

impl<M: Clocked> LineSession for Debugging<M> {
    ghost use Rattle.mic_base.specs.Prelude.{plain_left};
    ghost use Rattle.mic_debugger.specs.Prelude.{Rules, Stand};
    ghost use Rattle.cli_debug.specs.Debugging.{DebuggingView, debugging, debugging_view};

    ghost Seen = { DebuggingView M };

    ghost Rules = { Rules };

    ghost Stand = { Stand M.State };

    ghost meaning = { debugging M.state M.meaning };

    ghost seen = { λ d. debugging_view d.session (plain_left d.input) };

    fn answer<F: Files, S: Source, K: Sink, E: Sink>(
        &mut self,
        line: &[u8],
        outside: &mut Outside<'_, F, S, K, E>,
    ) -> Result<bool, SinkFailed> {
        let reply = answer_line(&mut self.session, line, &mut self.input, outside)?;
        Ok(is_quit_reply(reply))
    }
}
