//! The table of a session's commands: the word of each, and what follows it.

ghost use Rattle.std.specs.Prelude.{◌≡◌};
ghost use Rattle.mic_debugger.specs.Commands.{command_of};

use cli_session::{Argument, Command, CommandError, CommandRow};

/// The commands, each by its word.
#[derive(Clone, Copy, Debug, PartialEq, Eq)]
pub enum Verb {
    Micro,
    Step,
    Go,
    Break,
    Clear,
    Watch,
    Regs,
    Stack,
    Where,
    Quit,
}

macro_rules! rows {
    ($($verb:ident $word:literal $argument:ident)*) => {
        [$(CommandRow {
            verb: Verb::$verb,
            word: $word,
            argument: Argument::$argument,
        }),*]
    };
}

const COMMANDS: [CommandRow<Verb>; 10] = rows! {
    // verb  word     argument
    Micro    "micro"  Count
    Step     "step"   Count
    Go       "go"     Nothing
    Break    "break"  TextAddress
    Clear    "clear"  TextAddress
    Watch    "watch"  MemoryWord
    Regs     "regs"   Nothing
    Stack    "stack"  Nothing
    Where    "where"  Nothing
    Quit     "quit"   Nothing
};

/// Reads a line of a session: None where the line has no word.
pub fn read_command(line: &[u8], words: u32) -> Result<Option<Command<Verb>>, CommandError>
    ensures { result ≡ command_of words line.now }
{
    cli_session::read_command(&COMMANDS, line, words)
}
