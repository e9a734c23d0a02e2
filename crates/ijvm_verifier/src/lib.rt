//! Which images are accepted: no run of them can go astray. Every reached instruction is whole and inside the text,
//! finds its operands, its constant and its locals set, and all paths to it agree in their depth.
#![tactic(auto)]

pub mod accept;
mod count;
mod sweep;
pub mod verified;

pub use accept::verify;
pub use verified::VerifiedImage;
pub use verifier_facts::{Kind, VerifyError, accepted_images_keep_sound};
