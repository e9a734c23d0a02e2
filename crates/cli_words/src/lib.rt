//! What the words of a command line ask `mic` for.
#![tactic(auto)]

mod error;
mod laws;
mod options;
mod read;
mod request;
mod table;
mod taking;

pub use error::WordsError;
pub use laws::{each_name_is_given_once, what_is_given_is_written};
pub use options::{
    DEFAULT_BOUND, DEFAULT_DEPTH, MOST_BLOCKS, MOST_CYCLES, MOST_DEPTH, MOST_LINES, MOST_SEED,
};
pub use read::read_words;
pub use request::{Processor, Request};
pub use table::CommandName;
