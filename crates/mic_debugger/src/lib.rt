//! A debugging session over a board of any machine: a student steps by cycle and by instruction, stops at
//! breakpoints and at changes of a word, and looks at registers and memory.
#![tactic(auto)]

mod breakpoints;
mod clocking;
mod fault;
mod listing;
mod pieces;
mod plan;
mod reply;
mod session;
pub mod table;
mod until;

pub use fault::SessionFault;
pub use listing::Listing;
pub use reply::Reply;
pub use session::Session;
pub use table::{Verb, read_command};
