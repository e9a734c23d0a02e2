//! The lines of a session, one after the other.

ghost use Rattle.std.specs.Prelude.{◌≡◌, ℕ, suc, []};
ghost use Rattle.cli_session.specs.Lines.{most_lines};
ghost use Rattle.cli_session.specs.Meaning.{LastsOneLess};
ghost use Rattle.cli_session.specs.Goes.{GoesOver, step_after};

use crate::line::{Read, read_line};
use crate::session::LineSession;
use arrayvec::ArrayVec;
use cli_outside::Outside;
use mic_base::{Files, Sink, Source};

/// The most lines of a session.
pub const MOST_LINES: u32 = 65_536;

/// How a session goes on after a line.
#[derive(Clone, Copy, Debug, PartialEq, Eq)]
pub enum Step {
    On,
    /// The session was left, or its lines are at their end.
    Over,
    ConsoleFailed,
    SinkFailed,
}

/// How a session goes on after a line that was done.
fn step_after(read: Read, quits: bool) -> Step
    ensures { result ≡ step_after read quits }
{
    match (read, quits) {
        (_, true) => Step::Over,
        (Read::Line, false) => Step::On,
        (Read::Last, false) => Step::Over,
        (Read::Nothing, false) => Step::Over,
    }
}

/// Reads a line and does it.
fn do_line<L: LineSession, F: Files, S: Source, K: Sink, E: Sink>(
    session: &mut L,
    outside: &mut Outside<'_, F, S, K, E>,
) -> Step
    requires lasts { (n : ℕ) × L.meaning.Lasts (suc n) (L.seen session.old) }
    requires waits { L.meaning.waiting (L.seen session.old) ≡ [] }
    ensures lasts { result ≡ Step.On → LastsOneLess L.meaning (L.seen session.old) (L.seen session.new) }
    ensures goes { (n : ℕ) → GoesOver L.meaning L.seen (suc n) n session.old outside.old session.new outside.new result }
    ensures names { outside.new.names ≡ outside.old.names }
{
    let mut line = ArrayVec::new();
    let read = match read_line(outside.console, &mut line) {
        Ok(read) => read,
        Err(_) => return Step::ConsoleFailed,
    };
    if read == Read::Nothing {
        return Step::Over;
    }
    match session.answer(line.as_slice(), outside) {
        Ok(quits) => step_after(read, quits),
        Err(_) => Step::SinkFailed,
    }
}

/// Does the lines of the console until one quits.
pub fn do_lines<L: LineSession, F: Files, S: Source, K: Sink, E: Sink>(
    session: &mut L,
    outside: &mut Outside<'_, F, S, K, E>,
) -> Step
    requires lasts { L.meaning.Lasts most_lines (L.seen session.old) }
    requires waits { L.meaning.waiting (L.seen session.old) ≡ [] }
    ensures goes { GoesOver L.meaning L.seen most_lines 0 session.old outside.old session.new outside.new result }
    ensures names { outside.new.names ≡ outside.old.names }
{
    let mut step = Step::On;
    let mut left = MOST_LINES;
    'lines: while left > 0 && step == Step::On {
        step = do_line(session, outside);
        left -= 1;
    }
    step
}
