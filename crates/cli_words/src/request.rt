//! What a command line can ask for.

ghost use Rattle.std.specs.Prelude.{◌≡◌};
ghost use Rattle.cli_words.specs.Words.{machine_of};

use crate::table::CommandName;
use console_port::MemoryMap;
use mic_words::Machine;

/// What clocks a program: one of the two datapaths, or Mic-3, which clocks the microprogram that ships for Mic-2.
#[derive(Clone, Copy, Debug, PartialEq, Eq)]
pub enum Processor {
    Datapath(Machine),
    Mic3,
}

impl Processor {
    /// The datapath whose microprograms are clocked.
    pub fn machine(self) -> Machine
        ensures { result ≡ machine_of self }
    {
        match self {
            Processor::Datapath(machine) => machine,
            Processor::Mic3 => Machine::Mic2,
        }
    }
}

/// What a command line asks for: a command, and a value for each name of the table. Where the words give none, an option
/// has its default. What a command does not take is empty, none, or the least number.
#[derive(Clone, Copy, Debug, PartialEq, Eq)]
pub struct Request<T> {
    pub command: CommandName,
    /// The file that is read: a program, a source, or a microprogram to be placed.
    pub file: T,
    /// The file that is written.
    pub target: T,
    /// The seed of a generated program.
    pub seed: u32,
    /// The blocks of a generated program, 1 to 9,000.
    pub size: u16,
    /// The lines of a cache, 1 to 4,096.
    pub lines: u16,
    pub processor: Processor,
    /// The most cycles of a run, up to 1,000,000,000.
    pub bound: u64,
    /// A person's own microprogram; where none is named, the one that ships is clocked or printed.
    pub micro: Option<T>,
    /// The file of the program's input, in a session; its lines come from the console.
    pub input: Option<T>,
    /// The most cycles that a session goes back, 1 to 65,536.
    pub depth: u32,
    pub map: MemoryMap,
    /// Whether a trace prints the buses of each cycle.
    pub buses: bool,
}
