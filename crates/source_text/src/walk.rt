//! The lines of a source, one after the other.

ghost use Rattle.std.specs.Prelude.{◌≡◌, ◌<◌, ◌^◌, length, Ok, OnOk, IfErr};
ghost use Rattle.source_text.specs.Content.{contents};
ghost use Rattle.source_text.specs.Walk.{FailsBy, Leads, StaysBy, StopsBy};

use crate::content::{first_line, without_comment};

/// What reads the lines of a source, one after the other.
pub trait Reader {
    type Refusal;

    ghost use Rattle.std.specs.Prelude.{Bool};
    ghost use Rattle.source_text.specs.Walk.{Step};

    /// The state after the lines so far.
    ghost State: { Type 0 };

    ghost state: { Self → State };

    ghost step: { Step State Self.Refusal };

    /// Whether the refusal is out of memory, which may happen at any line.
    ghost is_memory: { Self.Refusal → Bool };

    /// Reads a line, given without its comment. A refused line leaves the state of the lines before it; running out of
    /// memory may leave any state.
    fn line(&mut self, number: u32, line: &[u8]) -> Result<(), Self::Refusal>
        ensures ok { OnOk result (step number (state self.old) line.now ≡ Ok (state self.new)) }
        ensures err { IfErr result (λ e. FailsBy is_memory e (step number (state self.old) line.now)) }
        ensures left { IfErr result (λ e. StaysBy is_memory e (state self.old) (state self.new)) };
}

/// Reads the lines of a text up to the first refusal, which leaves the state of the lines before it.
pub fn read_lines<R: Reader>(reader: &mut R, text: &[u8]) -> Result<(), R::Refusal>
    requires { length text.now < 2 ^ 32 }
    ensures ok { OnOk result (Leads R.step 1 (R.state reader.old) (contents text.now) (R.state reader.new)) }
    ensures err { IfErr result (λ e. StopsBy R.is_memory R.step (R.state reader.old) text.now e (R.state reader.new)) }
{
    let mut rest = text;
    let mut number = 0;
    while !rest.is_empty() {
        number += 1;
        let (line, after) = first_line(rest);
        reader.line(number, without_comment(line))?;
        rest = after;
    }
    Ok(())
}
