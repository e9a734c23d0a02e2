//! One line of the microassembly language: its grammar, and the coding of its statement.
#![tactic(auto)]

mod chain;
mod content;
mod expression;
mod gathering;
mod laws;
mod line;
mod next;
mod operation;
mod piece;
mod tree;

pub use chain::bit;
pub use content::{Content, Parts};
pub use laws::{named_registers_are_loaded, reads_what_is_spelled};
pub use line::{LineFault, line_from};
pub use next::Next;
