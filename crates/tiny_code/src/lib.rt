//! The code of a Tiny program, and the image that holds it.
#![tactic(auto)]

mod laws;

pub use laws::{
    jumps_have_lines, laid_out_programs_hold, methods_are_the_others, written_code_stands,
};
