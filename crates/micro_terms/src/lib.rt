//! Symbolic words: sums of numbered words with coefficients modulo 2^32, and a table that says what each number stands
//! for. What is said of a sum or a number holds in every environment that fits the table.
#![tactic(auto)]

mod alu;
mod conjunction;
mod node;
mod nodes;
mod order;
mod part;
mod range;
mod term;

pub use node::{Kind, Node};
pub use nodes::Nodes;
pub use order::{environments_exist, is_ordered};
pub use part::Part;
pub use range::Range;
pub use term::Term;
