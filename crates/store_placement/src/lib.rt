//! Addresses for the statements of a microprogram, the control store that they make, and its file.
#![tactic(auto)]

mod chosen;
mod clash;
mod collision;
mod constraints;
mod demands;
mod filling;
mod forced;
mod free;
mod laws;
mod open;
mod pair;
mod placement;
mod refusal;
mod steps;
mod store_error;
mod store_file;
mod taken;

pub use chosen::place;
pub use constraints::Constraints;
pub use demands::constraints_of;
pub use filling::fill;
pub use laws::chosen_law;
pub use placement::Placement;
pub use refusal::PlaceError;
pub use store_error::StoreError;
pub use store_file::{machine_of, read_store, store_bytes};
