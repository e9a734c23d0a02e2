//! The code of a Tiny program does what the program means.
#![tactic(auto)]

mod laws;

pub use laws::{images_run_as_meant, meanings_grow};
