//! The two datapaths by name, and the arithmetic of their 32-bit words.
#![tactic(auto)]

mod machine;

pub use machine::Machine;
