//! What stands at a byte of the text.

#[derive(Clone, Copy, Debug, PartialEq, Eq)]
pub enum Kind {
    /// A reached instruction begins here.
    Start,
    /// The header of a reached method begins here.
    Header,
    /// A further byte of a reached instruction or header.
    Inside,
    Unreached,
}
