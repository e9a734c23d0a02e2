//! The lines that both sessions print: an end, the registers, a memory word.

ghost use Rattle.std.specs.Prelude.{◌≡◌, ◌<◌};
ghost use Rattle.cli_session.specs.Texts.{end_line, state_text, word_text};

use cli_run_texts::end_name;
use mic_base::Line;
use mic_clock::{End, Registers, print_state};

/// The line of an end.
#[tactic(auto, unfolding(crate::specs::Texts::end_line))]
pub fn end_line(end: End) -> Line
    ensures { result ≡ end_line end }
{
    let mut line = Line::of("end ");
    end_name(&mut line, end);
    line.text("\n");
    line
}

/// The state line.
pub fn state_text(registers: &Registers) -> Line
    requires { registers.now.mpc < 512 }
    ensures { result ≡ state_text registers.now }
{
    let mut line = Line::new();
    print_state(registers, &mut line);
    line.text("\n");
    line
}

/// The address and the value of a memory word.
pub fn word_text(at: u32, value: u32) -> Line
    ensures { result ≡ word_text at value }
{
    let mut line = Line::addressed("", at);
    line.word(" ", value);
    line.text("\n");
    line
}
