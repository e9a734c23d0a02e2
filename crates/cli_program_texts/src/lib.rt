//! The texts about a program: why a file holds none, what one consists of, and its listing.
#![tactic(auto)]

mod listing;
mod parts;
mod refusals;
mod summary;

pub use listing::listing_of;
pub use refusals::{image_reason, link_reason, source_reason, verify_reason};
pub use summary::{sizes_of, summary_of};
