//! The trusted edge: readers, writers and real files. What they hold is not known.
pub mod ahead;
mod answers;
pub mod files;
pub mod sink;
pub mod source;
mod words;

pub use ahead::ReadAhead;
pub use files::StdFiles;
pub use sink::StdSink;
pub use source::StdSource;
pub use words::words_of;
