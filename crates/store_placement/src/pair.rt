//! The targets of a conditional.

/// The two targets of a conditional: where it goes if its flag holds, and if it does not.
#[derive(Clone, Copy, Debug, Default, PartialEq, Eq)]
pub struct Pair {
    pub yes: u16,
    pub no: u16,
}
