//! The ALU of both datapaths, from six control lines and two words, and the shifter after it.
#![tactic(auto)]

mod controls;
mod gates;
mod shifter;
mod slices;
mod table;
mod wires;

pub use controls::Controls;
pub use gates::{AluOut, alu, alu_by_lines};
pub use shifter::shift;
pub use table::each_row_computes;
