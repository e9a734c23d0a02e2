//! Whether a cycle stalls, and its edge where that needs neither a source nor a sink.

ghost use Rattle.std.specs.Prelude.{◌≡◌, ◌≤◌, false, length};
ghost use Rattle.mic2_datapath.specs.Common.{Mic2, statement_of, IsTried};
ghost use Rattle.mic2_datapath.specs.Latches.{AreLatches, HasComputed, IsDecoded, micro_in};
ghost use Rattle.mic2_datapath.specs.Mic2.{mic2_meaning};
ghost use Rattle.mic2_datapath.specs.Microstep.{is_stalled};

use crate::control::is_quiet;
use crate::latches::Latches;
use console_port::Bus;
use micro_word::Lines;

impl Latches {
    /// Whether too few bytes are available for a word.
    #[inline(always)]
    pub fn waits(&self, _word: u64, lines: &Lines) -> bool
        requires { IsDecoded _word lines.now }
        ensures stalled { result ≡ is_stalled (statement_of Mic2 _word) (micro_in self.now) }
        ensures there { result ≡ false → lines.now.takes ≤ length self.now.unit.bytes }
    {
        self.unit.have() < lines.takes
    }

    /// The edge of a cycle that reaches only memory, or writes to a console that has room. For any other, nothing is done.
    #[inline(always)]
    pub fn edge_inside(
        &mut self,
        word: u64,
        lines: &Lines,
        value: u32,
        c: u32,
        bus: &mut Bus,
    ) -> bool
        requires latches { AreLatches self.old }
        requires there { lines.now.takes ≤ length self.old.unit.bytes }
        requires decoded { IsDecoded word lines.now }
        requires computed { HasComputed (statement_of Mic2 word) (micro_in self.old) false value c }
        ensures latches { AreLatches self.new }
        ensures tried { IsTried mic2_meaning word (micro_in self.old) bus.old (micro_in self.new) bus.new result }
    {
        // Most words access nothing, and most others what is in memory.
        if is_quiet(word) {
            return self.advance(word, lines, value, c, None, bus).is_ok();
        }
        if let Some(sampled) = self.access_inside(word, c, lines.takes, bus) {
            return self.advance(word, lines, value, c, sampled, bus).is_ok();
        }
        false
    }
}
