//! A program as it is written: its tokens, and its tree with the names themselves, each with its line.
#![tactic(auto)]

mod make;
mod token;
mod tree;

pub use token::{Kind, Sign, Token};
pub use tree::{
    Block, Branches, Call, Comparison, Cond, Expr, Function, Statement, Step, Sum, Term, Word,
};
