//! One line of the console.

ghost use Rattle.std.specs.Prelude.{◌≡◌, ◌==◌, if◌then◌else◌};
ghost use Rattle.mic_base.specs.Prelude.{HasCause};
ghost use Rattle.cli_session.specs.Told.{ReadsLine};

use arrayvec::ArrayVec;
use mic_base::{Source, SourceFailed};

/// The bytes of a line that are kept: one more than a command may have.
pub const LINE_BYTES: usize = 256;

/// What was read from the console.
#[derive(Clone, Copy, Debug, PartialEq, Eq)]
pub enum Read {
    /// A line, and more may follow.
    Line,
    /// A line that ends at the end of the console.
    Last,
    /// Nothing: the console is at its end.
    Nothing,
}

/// Reads a line, up to a newline, to its 256th byte or to the end.
pub(crate) fn read_line<S: Source>(
    console: &mut S,
    line: &mut ArrayVec<u8, LINE_BYTES>,
) -> Result<Read, SourceFailed>
    ensures reads { ReadsLine (S.left console.old) line.new.items result (S.left console.new) }
    ensures cause { HasCause (S.faults console.old) (S.faults console.new) result }
{
    line.clear();
    'bytes: while line.len() < LINE_BYTES {
        match console.get()? {
            Some(byte) => {
                if byte == b'\n' {
                    return Ok(Read::Line);
                }
                line.push(byte);
            }
            None => return Ok(cut(line.is_empty())),
        }
    }
    Ok(Read::Line)
}

/// What is read where the console is at its end: the line so far, or nothing.
fn cut(is_empty: bool) -> Read
    ensures { result ≡ (if is_empty then Read.Nothing else Read.Last) }
{
    if is_empty { Read::Nothing } else { Read::Last }
}
