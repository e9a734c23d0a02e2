//! The search for the reached addresses of an image, with what is tested at each.
#![tactic(auto)]

mod checks;
pub mod code;
pub mod kept;
pub mod search;

pub use code::{decode, others_of, params_of};
pub use kept::Kept;
pub use search::search_all;
