//! What does the lines of a rewinding session.

ghost use Rattle.std.specs.Prelude.{◌≡◌, ◌∷◌, ℕ, suc, [], IfOk, OnOk, OnErr};
ghost use Rattle.cli_rewind.specs.Common.{FilesState, SourceState, outside_view, sink_of, Gone, IsCutShort, place};
ghost use Rattle.cli_rewind.specs.Commands.{is_quit};
ghost use Rattle.cli_rewind.specs.Rewinding.{IsCutInLine, Lasts, LastsOneLess, rewinding, rewinding_at};

use crate::replies::follow;
use crate::table::{is_quit, read_command};
use crate::telling::tell;
use cli_outside::Outside;
use cli_session::LineSession;
use mic_base::{Files, PlainSource, Sink, SinkFailed, Source};
use mic_clock::Clocked;
use mic_rewind::Rewind;

/// A rewind, the input of its program, and the number of its memory words.
#[derive(Drop)]
pub(crate) struct Rewinding<M: Clocked> {
    pub(crate) rewind: Rewind<M>,
    pub(crate) input: PlainSource,
    pub(crate) words: u32,
}

/// Does a line between the two sinks, and returns whether it quits.
fn do_line<M: Clocked, K: Sink, E: Sink>(
    rewind: &mut Rewind<M>,
    line: &[u8],
    words: u32,
    input: &mut PlainSource,
    out: &mut K,
    err: &mut E,
) -> Result<bool, SinkFailed>
    requires { (n : ℕ) × Lasts (suc n) (rewinding_at rewind.old words input.old) }
    ensures lasts { OnOk result (LastsOneLess words rewind.old input.old rewind.new input.new) }
    ensures quits { IfOk result (λ quits. quits ≡ is_quit words line.now) }
    ensures done { OnOk result ((files : FilesState) (console : SourceState) →
        Gone (rewinding M.state M.meaning) (line.now ∷ [])
        (place (rewinding_at rewind.old words input.old)
        (outside_view files console (sink_of K.held K.passed K.faults out.old)
        (sink_of E.held E.passed E.faults err.old)))
        (place (rewinding_at rewind.new words input.new)
        (outside_view files console (sink_of K.held K.passed K.faults out.new)
        (sink_of E.held E.passed E.faults err.new)))) }
    ensures broken { OnErr result ((files : FilesState) (console : SourceState) →
        IsCutShort (rewinding M.state M.meaning) line.now
        (place (rewinding_at rewind.old words input.old)
        (outside_view files console (sink_of K.held K.passed K.faults out.old)
        (sink_of E.held E.passed E.faults err.old)))
        (outside_view files console (sink_of K.held K.passed K.faults out.new)
        (sink_of E.held E.passed E.faults err.new))) }
{
    let read = read_command(line, words);
    let answer = follow(rewind, read, input, out)?;
    tell(rewind, answer.bytes(), out, err)?;
    Ok(is_quit(read))
}

/// Does a line.
fn answer_line<M: Clocked, F: Files, S: Source, K: Sink, E: Sink>(
    rewind: &mut Rewind<M>,
    line: &[u8],
    words: u32,
    input: &mut PlainSource,
    outside: &mut Outside<'_, F, S, K, E>,
) -> Result<bool, SinkFailed>
    requires { (n : ℕ) × Lasts (suc n) (rewinding_at rewind.old words input.old) }
    ensures lasts { OnOk result (LastsOneLess words rewind.old input.old rewind.new input.new) }
    ensures quits { IfOk result (λ quits. quits ≡ is_quit words line.now) }
    ensures done { OnOk result (Gone (rewinding M.state M.meaning) (line.now ∷ [])
        (place (rewinding_at rewind.old words input.old) outside.old.seen)
        (place (rewinding_at rewind.new words input.new) outside.new.seen)) }
    ensures broken { OnErr result (IsCutInLine M.state M.meaning line.now words rewind.old input.old outside.old outside.new) }
    ensures console { outside.new.seen.console ≡ outside.old.seen.console }
    ensures names { outside.new.names ≡ outside.old.names }
{
    do_line(rewind, line, words, input, outside.out, outside.err)
}

impl<M: Clocked> LineSession for Rewinding<M> {
    ghost use Rattle.mic_base.specs.Prelude.{plain_left};
    ghost use Rattle.cli_rewind.specs.Rewinding.{RewindingRules, RewindingView, rewinding, rewinding_view};
    ghost use Rattle.cli_rewind.specs.Stand.{Stand};

    ghost Seen = { RewindingView M };

    ghost Rules = { RewindingRules };

    ghost Stand = { Stand M.State };

    ghost meaning = { rewinding M.state M.meaning };

    ghost seen = { λ d. rewinding_view d.rewind d.words (plain_left d.input) };

    fn answer<F: Files, S: Source, K: Sink, E: Sink>(
        &mut self,
        line: &[u8],
        outside: &mut Outside<'_, F, S, K, E>,
    ) -> Result<bool, SinkFailed> {
        answer_line(&mut self.rewind, line, self.words, &mut self.input, outside)
    }
}
