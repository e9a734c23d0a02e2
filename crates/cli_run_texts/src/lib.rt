//! What is printed of a run: its report, and the status of its end.
#![tactic(auto)]

mod ends;
mod report;

pub use ends::{clocked_end, end_name, status_of};
pub use report::{clocked_head, clocked_report, left_report, plain_report};
