//! The tree that the tokens of a text spell, or the token that is refused first.
#![tactic(auto)]

mod block;
mod expr;
mod function;
mod refusal;
mod token;
mod whole;

pub use refusal::Refusal;
pub use whole::{parse, tokens_have_one_reading};
