//! The tokens of a line of the microassembly language: reserved words, signs, names and numbers.
#![tactic(auto)]

mod sign;
mod token;
mod word;

pub use sign::Sign;
pub use token::{Token, reads_what_is_spelled, tokens_of};
pub use word::Word;
