//! The exit statuses, each by a name.

ghost use Rattle.std.specs.Prelude.{◌≡◌, if◌then◌else◌, is_ok};
ghost use Rattle.cli_outside.specs.Status as exits;

use mic_base::SinkFailed;

/// An exit status.
#[derive(Clone, Copy, Debug, PartialEq, Eq)]
pub struct Status(pub u8);

impl Status {
    /// The command is done, or its run ended by HALT.
    pub const DONE: Status = Status(0);
    /// The run ended by ERR.
    pub const ERROR: Status = Status(1);
    /// The run ended at its bound.
    pub const BOUND: Status = Status(2);
    /// The run ended at the end of the stack.
    pub const STACK_LIMIT: Status = Status(3);
    /// The words ask for nothing.
    pub const USAGE: Status = Status(64);
    /// The file's contents are refused.
    pub const REFUSED: Status = Status(65);
    /// The file could not be read or written.
    pub const FILE: Status = Status(66);
    /// The file is too long.
    pub const TOO_LONG: Status = Status(67);
    /// The run left the memory map.
    pub const OUT_OF_MAP: Status = Status(68);
    /// The run met no boundary for too long.
    pub const ADRIFT: Status = Status(69);
    /// The console failed.
    pub const CONSOLE: Status = Status(70);
    /// `out` or `err` failed.
    pub const SINK: Status = Status(71);
    /// Memory ran out.
    pub const MEMORY: Status = Status(75);

    /// This status, or that of a failed sink where its text was not printed.
    pub fn once(self, said: Result<(), SinkFailed>) -> Status
        ensures { result.0 ≡ (if is_ok said then self.0 else exits.sink) }
    {
        if said.is_ok() { self } else { Status::SINK }
    }
}
