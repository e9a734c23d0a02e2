//! The table of a session's commands: the word of each, and what follows it.

ghost use Rattle.std.specs.Prelude.{◌≡◌};
ghost use Rattle.cli_session.specs.Prelude.{is_quit_in};
ghost use Rattle.cli_rewind.specs.Commands.{command_of, is_quit_verb};

use cli_session::{Argument, Command, CommandError, CommandRow};

/// The commands, each by its word.
#[derive(Clone, Copy, Debug, PartialEq, Eq)]
pub enum Verb {
    /// Goes forward by this many cycles, or to an end.
    Micro,
    /// Goes back by this many cycles, or as far as cycles are kept.
    Back,
    /// Shows a memory word.
    Word,
    /// Shows the registers.
    Regs,
    /// Ends the session.
    Quit,
}

macro_rules! rows {
    ($($verb:ident $word:literal $argument:ident)*) => {
        [$(CommandRow {
            verb: Verb::$verb,
            word: $word,
            argument: Argument::$argument,
        }),*]
    };
}

const COMMANDS: [CommandRow<Verb>; 5] = rows! {
    // verb  word     argument
    Micro    "micro"  Count
    Back     "back"   Count
    Word     "word"   MemoryWord
    Regs     "regs"   Nothing
    Quit     "quit"   Nothing
};

/// Reads a line of a session over a memory of this many words: None where the line has no word.
pub(crate) fn read_command(line: &[u8], words: u32) -> Result<Option<Command<Verb>>, CommandError>
    ensures { result ≡ command_of words line.now }
{
    cli_session::read_command(&COMMANDS, line, words)
}

/// Whether what was read ends the session.
pub(crate) fn is_quit(read: Result<Option<Command<Verb>>, CommandError>) -> bool
    ensures { result ≡ is_quit_in is_quit_verb read }
{
    match read {
        Ok(Some(command)) => command.verb == Verb::Quit,
        _ => false,
    }
}
