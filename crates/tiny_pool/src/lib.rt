//! The pool of a Tiny program: 0, the entries of its functions but main, and its numbers above 127.
#![tactic(auto)]

mod constants;
mod numbers;
mod pool;
mod table;

pub use pool::make_pool;
pub use table::Table;
