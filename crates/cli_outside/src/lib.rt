//! The outside of a call, and the work of a command at its edges: a file is read, what came of it is printed, written
//! or refused, and a status reports how that went.
#![tactic(auto)]

mod outside;
mod refusal;
mod said;
mod status;

pub use outside::{Outside, close};
pub use refusal::{Refusal, of_line};
pub use said::{no_memory, put_after, say, say_of};
pub use status::Status;
