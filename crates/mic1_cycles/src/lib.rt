//! One symbolic cycle of Mic-1: a path's registers hold numbers of symbolic words, and a statement that is clocked leads
//! it on. In every environment that fits the table of numbers, that is a cycle of the machine.
#![tactic(auto)]

mod access;
mod compute;
mod known;
mod laws;
mod next;
mod path;
mod question;
mod refusal;
mod site;
mod step;
mod symbols;

pub use known::{Known, KnownByte, KnownWord};
pub use path::Path;
pub use question::{Answer, Question};
pub use refusal::Stop;
pub use step::Stepped;
pub use symbols::{Byte, Symbols, Write};
