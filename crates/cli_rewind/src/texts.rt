//! The lines of a session.

ghost use Rattle.std.specs.Prelude.{◌≡◌, ◌≤◌, ◌+◌, length};
ghost use Rattle.cli_rewind.specs.Lines.{back_text, cycle_line, forward_text, refusal_text};

use cli_run_texts::end_name;
use cli_session::CommandError;
use mic_base::Line;
use mic_clock::{Clocked, End};
use mic_rewind::Rewind;

/// The cycles at the cursor, and the address of the word that comes next.
#[tactic(auto, unfolding(crate::specs::Lines::cycle_line))]
fn cycle_line<M: Clocked>(rewind: &Rewind<M>) -> Line
    ensures text { result ≡ cycle_line rewind.now.history.here.moment }
    ensures len { length result ≤ 64 }
{
    let mut line = Line::numbered("cycle ", rewind.counts().cycles);
    line.text(" mpc ");
    line.hex(u64::from(rewind.registers().mpc), 3);
    line.text("\n");
    line
}

/// What is printed after cycles forward, which came to this end, or to none.
#[tactic(auto, unfolding(cli_session::specs::Texts::end_line))]
pub(crate) fn forward_text<M: Clocked>(rewind: &Rewind<M>, end: Option<End>) -> Line
    ensures { result ≡ forward_text end rewind.now.history.here.moment }
{
    let mut line = cycle_line(rewind);
    if let Some(end) = end {
        line.text("end ");
        end_name(&mut line, end);
        line.text("\n");
    }
    line
}

/// What is printed after cycles back, which were as many as were asked for, or fewer.
pub(crate) fn back_text<M: Clocked>(rewind: &Rewind<M>, all: bool) -> Line
    ensures { result ≡ back_text all rewind.now.history.here.moment }
{
    let mut line = cycle_line(rewind);
    if !all {
        line.text("? history ends\n");
    }
    line
}

/// What is printed of a line that is no command.
pub(crate) fn refusal_text(error: CommandError) -> Line
    ensures { result ≡ refusal_text error }
{
    match error {
        CommandError::BadCommand => Line::of("? bad command\n"),
        CommandError::BadNumber => Line::of("? bad number\n"),
    }
}
