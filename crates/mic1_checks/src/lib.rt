//! That one control store of Mic-1 takes of each instruction of IJVM what another one takes: both are run symbolically
//! from one boundary, under all answers to what their paths ask, and have to end alike.
#![tactic(auto)]

mod all;
mod boot;
mod check;
mod difference;
mod ends;
mod facts;
mod finding;
mod instruction;
mod judged;
mod laws;
mod leaf;
mod left;
mod registers;
mod search;
mod shape;
mod start;
mod stores;
mod tree;
mod writes;

pub use all::takes_alike;
pub use boot::boot_alike;
pub use check::instruction_alike;
pub use ends::{Ends, ends_of};
pub use finding::{Asked, Difference, Finding, NotShown, Register};
pub use instruction::Instruction;
pub use judged::{Costs, Verdict, judge};
pub use laws::transfer_law;
pub use leaf::Counts;
pub use search::Search;
pub use shape::Shape;
pub use stores::Stores;
