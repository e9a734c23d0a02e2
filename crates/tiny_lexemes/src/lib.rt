//! How the tokens of a Tiny line are spelled: signs, reserved words, names and numbers, and what is none of them.
#![tactic(auto)]

mod lexeme;
mod sign;

pub use lexeme::{Lexeme, Tiny, lines_have_one_reading};
