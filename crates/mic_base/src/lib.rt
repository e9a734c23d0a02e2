//! The outside world as traits that count their faults, and the texts, numbers and names that every crate speaks of.
#![tactic(auto)]

pub mod files;
pub mod line;
pub mod memory;
pub mod name;
pub mod number;
pub mod plain;
pub mod sink;
pub mod source;
pub mod standard;

pub use files::{FileError, Files};
pub use line::Line;
pub use memory::{MemFiles, MemSink, MemSource};
pub use name::Name;
pub use number::{Number, NumberError, hex_is_read_back};
pub use plain::{PlainSink, PlainSource};
pub use sink::{Sink, SinkFailed};
pub use source::{Source, SourceFailed};
pub use standard::{ReadAhead, StdFiles, StdSink, StdSource, words_of};
