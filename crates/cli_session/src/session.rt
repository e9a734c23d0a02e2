//! What does the lines of a session.

ghost use Rattle.std.specs.Prelude.{◌≡◌, ◌∷◌, ℕ, suc, [], List, IfOk, OnOk, OnErr};
ghost use Rattle.cli_session.specs.Meaning.{GoneOver, IsCutOver, LastsOneLess};

use cli_outside::Outside;
use mic_base::{Files, Sink, SinkFailed, Source};

/// A session that does one line after the other, until one quits.
pub trait LineSession {
    ghost use Rattle.cli_session.specs.Meaning.{SessionMeaning};

    /// What is seen of a session.
    ghost Seen: { Type 0 };

    /// What no line changes.
    ghost Rules: { Type 0 };

    /// Where a session stands between two lines.
    ghost Stand: { Type 0 };

    /// What its lines mean.
    ghost meaning: { SessionMeaning Seen Rules Stand };

    ghost seen: { Self → Seen };

    /// Does a line, and returns whether it quits. Its output goes to `out`, its answer to `err`, and both are flushed.
    fn answer<F: Files, S: Source, K: Sink, E: Sink>(
        &mut self,
        line: &[u8],
        outside: &mut Outside<'_, F, S, K, E>,
    ) -> Result<bool, SinkFailed>
        requires { (n : ℕ) × meaning.Lasts (suc n) (seen self.old) }
        ensures lasts { OnOk result (LastsOneLess meaning (seen self.old) (seen self.new)) }
        ensures quits { IfOk result (λ quits. quits ≡ meaning.quits (seen self.old) line.now) }
        ensures done { OnOk result (GoneOver meaning seen (line.now ∷ []) self.old outside.old self.new outside.new) }
        ensures broken { OnErr result (IsCutOver meaning seen line.now self.old outside.old outside.new) }
        ensures console { outside.new.seen.console ≡ outside.old.seen.console }
        ensures names { outside.new.names ≡ outside.old.names };
}
