//! One call of the program `mic-check`: whether a microprogram of Mic-1 is proved to interpret IJVM, with its cycles, or
//! where that is not shown.
#![tactic(auto)]

mod answers;
mod brief;
mod costs;
mod difference;
mod finding;
mod judging;
mod labels;
mod table;
mod top_call;
mod usage;
mod words;
mod written;

pub use answers::check_main;
pub use usage::misused;
