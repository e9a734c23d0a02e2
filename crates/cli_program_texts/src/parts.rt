//! What is printed of a byte of the text, and of a number.

ghost use Rattle.std.specs.Prelude.{◌≡◌, ◌≤◌, ◌+◌, ◌++◌, length};
ghost use Rattle.std.specs.Fmt.{decimal};
ghost use Rattle.cli_program_texts.specs.Refusals.{of_byte};

use mic_base::Line;

/// What is printed of the byte at an address.
pub fn at_byte(at: u32, text: &str) -> Line
    requires { length text.now ≤ 400 }
    ensures { result ≡ of_byte at ++ text.now }
{
    let mut line = Line::addressed(": ", at);
    line.text(text);
    line
}

/// What is printed of the byte at an address, up to a number.
pub fn numbered_at(at: u32, text: &str, value: u64) -> Line
    requires { length text.now ≤ 400 }
    ensures text { result ≡ of_byte at ++ text.now ++ decimal value }
    ensures len { length result ≤ length text.now + 30 }
{
    let mut line = Line::addressed(": ", at);
    line.number(text, value);
    line
}

/// A number between two texts.
pub fn number_between(before: &str, value: u64, after: &str) -> Line
    requires { length before.now + length after.now ≤ 400 }
    ensures { result ≡ before.now ++ decimal value ++ after.now }
{
    let mut line = Line::numbered(before, value);
    line.text(after);
    line
}
