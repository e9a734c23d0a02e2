//! The header of a method.

ghost use Rattle.std.specs.Prelude.{◌≡◌, ◌+◌, ◌++◌, ◌<◌, length, slice_get, IfSome, OnOk};
ghost use Rattle.ijvm_image.specs.Header.{header};
ghost use Rattle.ijvm_image.specs.Image.{params, others, method_at};

use crate::image::Image;
use ijvm_instr::two_bytes;
use std::alloc::AllocError;

/// Where a method begins, and the two counts of its header.
#[derive(Clone, Copy, Debug, PartialEq, Eq)]
pub struct Method {
    pub entry: u32,
    /// Its parameters, with the object reference.
    pub params: u16,
    /// Its other locals.
    pub others: u16,
}

impl Method {
    /// The method at this entry, if its header and a byte of code stand inside the text.
    #[tactic(auto, unfolding(crate::specs::Image::params, crate::specs::Image::others))]
    pub fn at(text: &[u8], entry: u32) -> Option<Method>
        ensures is { result ≡ method_at text.now (Some entry) }
        ensures inside { IfSome result (λ m. m.entry + 4 < length text.now) }
    {
        let at = entry as usize;
        if at + 4 >= text.len() {
            return None;
        }
        Some(Method {
            entry,
            params: 256 * u16::from(text[at]) + u16::from(text[at + 1]),
            others: 256 * u16::from(text[at + 2]) + u16::from(text[at + 3]),
        })
    }
}

/// Appends the header of a method with these counts.
pub fn push_header(text: &mut Vec<u8>, params: u16, others: u16) -> Result<(), AllocError>
    ensures { OnOk result (text.new.items ≡ text.old.items ++ header params others) }
{
    text.extend_from_slice(&two_bytes(params))?;
    text.extend_from_slice(&two_bytes(others))?;
    Ok(())
}

impl Image {
    /// The method whose entry is this constant.
    pub fn method(&self, index: u16) -> Option<Method>
        ensures is { result ≡ method_at self.now.text (slice_get self.now.pool index) }
        ensures inside { IfSome result (λ m. m.entry + 4 < 65536) }
    {
        let entry = self.pool().get(index as usize).copied()?;
        Method::at(self.text(), entry)
    }
}
