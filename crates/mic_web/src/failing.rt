//! Which calls fail, as a page asks for it.

/// The numbers, from 1, of the calls of each part of the outside that fail.
#[derive(Clone, Copy)]
pub(crate) struct Failing<'a> {
    pub(crate) files: &'a [u64],
    pub(crate) console: &'a [u64],
    pub(crate) out: &'a [u64],
    pub(crate) err: &'a [u64],
}
