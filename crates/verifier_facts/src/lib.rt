//! What verifying an image means: the paths through its instructions, the table of what may be wrong, and what acceptance says of runs.
#![tactic(auto)]

pub mod error;
pub mod kind;
pub mod law;

pub use error::VerifyError;
pub use kind::Kind;
pub use law::{accepted_images_keep_sound, instructions_are_whole};
