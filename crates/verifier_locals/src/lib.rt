//! Whether each read of a method's own local comes after a store to it: the graph of the reached instructions, and its
//! search.
#![tactic(auto)]

pub mod graph;
mod local_set;
mod shortcut;
mod trace;
pub mod unset;

pub use graph::{Node, graph_of};
pub use unset::check_locals;
