//! Machines that are clocked, their cycle, and a board that runs any of them.
#![tactic(auto)]

pub mod board;
pub mod buses;
pub mod clocked;
mod counting;
pub mod counts;
mod cycle;
pub mod end;
pub mod laws;
pub mod phase;
pub mod registers;
mod running;
mod state;
pub mod subcycles;
mod turning;
pub mod word;

pub use board::Board;
pub use buses::{Computed, Drive};
pub use clocked::Clocked;
pub use counts::{Boundary, Counts};
pub use end::{End, Tick};
pub use laws::{one_end, runs_compose, turn_law, turns_add};
pub use phase::Phase;
pub use registers::{Registers, Start, Tail};
pub use state::print_state;
pub use subcycles::Subcycles;
pub use word::MicroWord;
