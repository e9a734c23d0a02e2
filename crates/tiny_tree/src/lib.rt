//! The tree of a Tiny program, in which every name is a position, and the lists that it is made of.
#![tactic(auto)]

mod items;
mod make;
mod tree;

pub use items::Items;
pub use tree::{Block, Cond, Expr, Function, Operator, Statement, Step, Term};
