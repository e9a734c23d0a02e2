//! The canonical text of the statements and of the lines of the microassembly language: its tokens, and how they are printed.
#![tactic(auto)]

mod assignment;
mod laws;
mod line;
mod parts;
mod printing;
mod token_list;

pub use laws::lines_spell_what_is_printed;
pub use line::{fallback, fix, lone, statement};
pub use parts::parts_of;
pub use printing::print_tokens;
pub use token_list::Tokens;
