//! IJVM as a definition and as a plain machine that computes it, offered as one crate.
#![tactic(auto)]

pub use ijvm_image::{Image, ImageError, Method, read_image, write_image};
pub use ijvm_instr::{
    Cost, Flow, Instr, Operands, Row, decode_at, decode_instr, encode_instr, name, print_instr,
    print_name, target_of,
};
pub use ijvm_meaning::RunEnd;
pub use ijvm_reference::{Frames, PlainEnd, PlainReport, StepEnd, StepError, run_plain};
