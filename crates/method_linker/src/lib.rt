//! From a program to its image: its units are written one after the other, and then the limits are tested.
#![tactic(auto)]

mod code;
mod distance;
mod error;
mod image;
mod method;
mod pool;

pub use error::LinkError;
pub use image::link;
