//! The code of a Tiny program is accepted: each of its instructions has a note, which the program's tree gives.
#![tactic(auto)]

mod laws;

pub use laws::laid_out_programs_are_accepted;
