//! Images: text and constant pool, the methods in them, and image files both ways.
#![tactic(auto)]

pub mod image;
pub mod laws;
pub mod method;
pub mod reader;
pub mod writer;

pub use image::{Image, ImageError};
pub use laws::a_file_says_one_thing;
pub use method::{Method, push_header};
pub use reader::read_image;
pub use writer::write_image;
