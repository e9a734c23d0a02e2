//! Why a command gets nothing from a file.

ghost use Rattle.std.specs.Prelude.{◌≡◌, ◌≤◌, ◌+◌, length};
ghost use Rattle.cli_outside.specs.Messages.{of_line};
ghost use Rattle.cli_outside.specs.Work.{refusal_by};

use mic_base::Line;
use std::alloc::AllocError;

/// Why a command gets nothing from the bytes of a file.
#[derive(Drop)]
pub enum Refusal {
    /// The file is refused: what follows its name in the message.
    Refused(Line),
    OutOfMemory,
}

impl Refusal {
    /// The refusal for this reason; out of memory where there is none.
    pub fn by(reason: Option<Line>) -> Refusal
        ensures { result ≡ refusal_by reason }
    {
        match reason {
            Some(line) => Refusal::Refused(line),
            None => Refusal::OutOfMemory,
        }
    }
}

impl From<AllocError> for Refusal {
    ghost use Rattle.cli_outside.specs.declared.refusal.Refusal.TheVariants.{OutOfMemory};

    ghost from_gives = { λ _ e. e ≡ OutOfMemory };

    fn from(_: AllocError) -> Refusal {
        Refusal::OutOfMemory
    }
}

/// The reason for a refusal that is about one line of the file.
pub fn of_line(line: u32, text: &str) -> Line
    requires { length text.now ≤ 400 }
    ensures text { result ≡ of_line line text.now }
    ensures len { length result ≤ length text.now + 23 }
{
    let mut said = Line::numbered(":", u64::from(line));
    said.text(": ");
    said.text(text);
    said
}
