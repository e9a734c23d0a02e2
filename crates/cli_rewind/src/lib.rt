//! The command that rewinds: its lines come from the console, the program's input from a file.
#![tactic(auto)]

mod commands;
mod moves;
mod replies;
mod rewind;
mod rewinding;
pub mod table;
mod telling;
mod texts;

pub use commands::rewind_file;
pub use rewind::rewind_program;
pub use table::Verb;
