//! Acceptance by notes: an image is accepted where each instruction meets a note of its unit, its depth and its set locals.
#![tactic(auto)]

pub mod laws;

pub use laws::{listed_images_are_accepted, noted_images_are_accepted};
