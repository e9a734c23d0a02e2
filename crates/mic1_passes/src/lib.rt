//! Symbolic passes of Mic-1: a path is followed over any control store from one boundary to the next, or to a refused
//! access.
#![tactic(auto)]

mod run;
mod work;

pub use run::{Followed, follow};
pub use work::Work;
