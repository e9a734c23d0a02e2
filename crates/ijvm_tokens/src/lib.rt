//! The tokens of a line of an IJVM source: signs, dotted words, names and numbers.
#![tactic(auto)]

mod sign;
mod token;

pub use sign::Sign;
pub use token::{Token, reads_what_is_spelled, tokens_of};
