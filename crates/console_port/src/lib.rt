//! Memory words and a console in one address space, between a source and a sink of bytes.
#![tactic(auto)]

pub mod bus;
pub mod console;
pub mod fault;
mod loading;
pub mod map;
mod pages;
pub mod word;

pub use bus::Bus;
pub use console::{Console, MOST_KEPT};
pub use fault::BusFault;
pub use map::{CONSOLE, FRAME, MOST_POOL, MOST_TEXT, MemoryMap, POOL};
pub use word::byte_of;
