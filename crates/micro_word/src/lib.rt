//! A microinstruction: its structured form, its word on each machine, and the control store.
#![tactic(auto)]

pub mod bits;
mod bus;
mod canonical;
mod codes;
mod destination;
mod laws;
mod layout;
mod lines;
mod operation;
mod statement;
mod store;
mod valid;
mod word;

pub use destination::Destination;
pub use laws::{statement_law, word_law};
pub use layout::{Fields, fields1, fields2};
pub use lines::{Lines, NOTHING, NOWHERE, is_named};
pub use mic_words::Machine;
pub use operation::OperationRow;
pub use statement::{AluOp, BusSource, Mem, Part, Placed, PlacedNext, Shift, Test};
pub use store::Store;
pub use word::{Word1, Word2, decode1, decode2, encode1, encode2};
