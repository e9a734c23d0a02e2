//! A multiple of a numbered word.

/// So many times the word of a number.
#[derive(Clone, Copy, Debug, PartialEq, Eq)]
pub struct Part {
    pub coefficient: u32,
    pub number: u32,
}
