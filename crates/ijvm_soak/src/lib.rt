//! The programs that a seed and a size generate: main works on one sum, block by block, and each of them is accepted.
#![tactic(auto)]

mod code;
pub mod image;
pub mod laws;

pub use image::soak_image;
pub use laws::{generated_images_are_accepted, generated_texts_are_short};
