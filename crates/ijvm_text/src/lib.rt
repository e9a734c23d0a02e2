//! The text of an image as it is written: instructions, methods' headers, the first jump that leads too far, and where methods begin.
#![tactic(auto)]

pub mod text;
pub mod units;

pub use text::{FarJump, Text, put};
pub use units::Units;
