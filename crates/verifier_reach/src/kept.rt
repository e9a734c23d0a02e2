//! What the search for reached addresses keeps of one.

/// The unit, which is a method's entry or none in main, and the number of operands.
#[derive(Clone, Copy)]
pub struct Kept {
    pub unit: Option<u32>,
    pub depth: u32,
}
