//! From a Tiny text to the verified image of its code.
#![tactic(auto)]

mod code_image;
mod compiler;
mod laws;
mod verify_code;

pub use compiler::compile;
pub use laws::{
    coded_programs_are_accepted, coded_programs_are_laid_out, compiled_programs_run_as_meant,
    texts_compile_to_one_program,
};
pub use tiny_parser::TinyError;
pub use verify_code::verified;
