//! The microprograms with which Mic-1 and Mic-2 interpret IJVM, and a microprogram's control store.
#![tactic(auto)]

mod laws;
mod loaded;
mod mic1;
mod mic2;
mod program;

pub use laws::{
    loaded_programs_are_shipped, shipped_programs_are_listed, shipped_texts_are_canonical,
};
pub use loaded::{Loaded, load_micro, shipped_store};
pub use mic1::MIC1;
pub use mic2::MIC2;
pub use program::{shipped_program, shipped_text};
