//! Sessions: the lines of the console are read and done one after the other. A line is read as a command of a table.
#![tactic(auto)]

mod input;
mod line;
mod lines;
mod reading;
mod session;
mod table;
mod texts;

pub use input::chosen_input;
pub use line::{LINE_BYTES, Read};
pub use lines::{MOST_LINES, Step, do_lines};
pub use reading::{Command, CommandError, MOST_LINE, read_command};
pub use session::LineSession;
pub use table::{Argument, CommandRow};
pub use texts::{end_line, state_text, word_text};
