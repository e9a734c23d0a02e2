//! Lines of a session that are put to a sink.

ghost use Rattle.std.specs.Prelude.{◌≡◌, ◌++◌, ◌<◌, ◌+◌, ◌^◌};
ghost use Rattle.mic_debugger.specs.Common.{HasCause, KeepsFront, Puts, word_line};
ghost use Rattle.mic_debugger.specs.Lines.{registers_line, word_lines};

use cli_outside::put_after;
use cli_session::word_text;
use console_port::Bus;
use mic_base::{Line, Sink, SinkFailed};
use mic_clock::{Registers, print_state};

/// Puts one piece after another.
pub(crate) fn put_two<E: Sink>(err: &mut E, first: &[u8], second: &[u8]) -> Result<(), SinkFailed>
    ensures puts { Puts (E.held err.old) (first.now ++ second.now) result (E.held err.new) }
    ensures keeps { KeepsFront (E.held err.old) (E.held err.new) }
    ensures passed { E.passed err.new ≡ E.passed err.old }
    ensures cause { HasCause (E.faults err.old) (E.faults err.new) result }
{
    let said = err.put(first);
    put_after(said, err, second)
}

/// The registers after a cycle.
#[tactic(auto, unfolding(crate::specs::Lines::registers_line))]
pub(crate) fn registers_line(registers: &Registers) -> Line
    requires { registers.now.mpc < 512 }
    ensures { result ≡ registers_line registers.now }
{
    let mut line = Line::new();
    line.text("  ");
    print_state(registers, &mut line);
    line.text("\n");
    line
}

/// A memory word and its address.
fn word_line(bus: &Bus, at: u32) -> Line
    ensures { result ≡ word_line bus.now.words at }
{
    word_text(at, bus.peek(at).unwrap_or(0))
}

/// Puts this many memory words, from an address on.
pub(crate) fn put_words<E: Sink>(
    bus: &Bus,
    first: u32,
    count: u32,
    err: &mut E,
) -> Result<(), SinkFailed>
    requires { first + count < 2 ^ 32 }
    ensures puts { Puts (E.held err.old) (word_lines bus.now.words first count) result (E.held err.new) }
    ensures keeps { KeepsFront (E.held err.old) (E.held err.new) }
    ensures passed { E.passed err.new ≡ E.passed err.old }
    ensures cause { HasCause (E.faults err.old) (E.faults err.new) result }
{
    let mut said = Ok(());
    for n in 0..count {
        said = put_after(said, err, word_line(bus, first + n).bytes());
    }
    said
}
