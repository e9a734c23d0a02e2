//! IJVM's instructions: the table, their bytes both ways, their text.
#![tactic(auto)]

pub mod decode;
pub mod encode;
pub mod instr;
pub mod jumps;
pub mod laws;
pub mod print;
pub mod row;

pub use decode::{decode_at, decode_instr};
pub use encode::{encode_instr, push_instr, two_bytes};
pub use instr::{INSTRUCTIONS, Instr};
pub use jumps::is_far;
pub use laws::read_instructions_are_whole;
pub use print::{print_instr, print_name, target_of};
pub use row::{Cost, Flow, Operands, Row, name};
