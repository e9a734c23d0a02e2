//! The commands `micro` and `print-micro`: a microprogram is placed and its control store written, a microprogram is printed, a control store listed.
#![tactic(auto)]

mod commands;
mod lines;
mod listing;
mod placing;
mod reasons;

pub use commands::{micro, print_micro, print_shipped};
pub use reasons::{mal_reason, place_reason};
