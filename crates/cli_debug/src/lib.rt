//! The command that debugs: its lines come from the console, the program's input from a file.
#![tactic(auto)]

mod commands;
mod debug;
mod debugging;

pub use commands::debug_file;
pub use debug::debug_program;
