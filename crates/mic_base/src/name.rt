//! A name of a source, of at most 64 bytes, without memory of its own.

ghost use Rattle.std.specs.Prelude.{◌≡◌, ◌≤◌, Some, None, true, if◌then◌else◌, length, nat_eq, refl};
ghost use Rattle.std.specs.List.{list_all};
ghost use Rattle.std.specs.Ordering.{nat_cmp};
ghost use Rattle.std.specs.Cmp.{partial_equiv_from_equiv};
ghost use Rattle.std.specs.Cmp.Lexicographic.{pointwise, slice_cmp, nat_list_eq_equiv, nat_list_cmp_total, texts_po, texts_ties};
ghost use Rattle.mic_base.specs.Name.{begins_digit, is_name, is_name_byte, padded};

use std::cmp::Ordering;
use std::marker::Model;
use std::{fmt, str};

const MOST: usize = 64;

/// A name of a source: 1 to 64 letters, digits and `_`, the first no digit.
#[derive(Clone, Copy)]
pub struct Name {
    /// The text, with zeros after it.
    bytes: [u8; MOST],
    len: u8,
}

impl Model for Name {
    ghost use Rattle.std.specs.Prelude.{◌≡◌, List, ℕ, true, take, length};
    ghost use Rattle.mic_base.specs.Name.{is_name, padded};

    ghost Value = { List ℕ };

    ghost view = { λ name. take name.len name.bytes };

    ghost invariant = { λ name.
        (is_name (take name.len name.bytes) ≡ true)
        × (padded (take name.len name.bytes) ≡ name.bytes)
        × (length (take name.len name.bytes) ≡ name.len) };

    ghost inverse = { λ text. record { bytes = padded text; len = length text } };

    ghost inverse_ok = { λ name h i. record { bytes = h.1 i; len = h.2 i } };
}

impl Name {
    /// The name that these bytes are, if they are one.
    pub fn new(text: &[u8]) -> Option<Name>
        ensures { result ≡ (if is_name text.now then Some text.now else None) }
    {
        if !is_name(text) {
            return None;
        }
        Some(Name {
            bytes: padded(text),
            len: text.len() as u8,
        })
    }

    fn text_bytes(&self) -> &[u8]
        ensures { result.now ≡ self.now }
    {
        &self.bytes[..usize::from(self.len)]
    }

    /// The text of the name.
    pub fn text(&self) -> &str
        ensures value { result.now ≡ self.now }
        ensures named { is_name self.now ≡ true }
    {
        str::from_utf8(&self.bytes[..usize::from(self.len)]).unwrap()
    }
}

impl PartialEq for Name {
    ghost eq = { pointwise nat_eq };

    ghost laws = { partial_equiv_from_equiv nat_list_eq_equiv };

    fn eq(&self, other: &Name) -> bool {
        self.text_bytes() == other.text_bytes()
    }
}

impl Eq for Name {
    ghost laws = { nat_list_eq_equiv };
}

impl PartialOrd for Name {
    ghost partial_cmp = { λ a b. Some (slice_cmp nat_cmp a b) };

    ghost laws = { texts_po };

    fn partial_cmp(&self, other: &Name) -> Option<Ordering> {
        Some(self.cmp(other))
    }
}

/// Names are ordered as their bytes.
impl Ord for Name {
    ghost cmp = { slice_cmp nat_cmp };

    ghost total = { nat_list_cmp_total };

    ghost matches_partial_cmp = { λ a b. refl };

    ghost matches_eq = { texts_ties };

    fn cmp(&self, other: &Name) -> Ordering {
        // The first letters decide most comparisons, without a call.
        let (first, its) = (self.bytes[0], other.bytes[0]);
        if first != its {
            return first.cmp(&its);
        }
        self.text_bytes().cmp(other.text_bytes())
    }
}

impl fmt::Debug for Name {
    fn fmt<W: fmt::Write>(&self, f: &mut fmt::Formatter<W>) -> fmt::Result {
        fmt::Debug::fmt(self.text(), f)
    }
}

fn padded(text: &[u8]) -> [u8; MOST]
    requires { length text.now ≤ 64 }
    ensures { result ≡ padded text.now }
{
    let mut bytes = [0; MOST];
    bytes[..text.len()].copy_from_slice(text);
    bytes
}

fn begins_digit(text: &[u8]) -> bool
    ensures { result ≡ begins_digit text.now }
{
    match text {
        [] => false,
        [first, ..] => first.is_ascii_digit(),
    }
}

fn are_name_bytes(text: &[u8]) -> bool
    ensures { result ≡ list_all is_name_byte text.now }
{
    text.iter()
        .all(|byte| byte.is_ascii_alphanumeric() || *byte == b'_')
}

fn is_name(text: &[u8]) -> bool
    ensures { result ≡ is_name text.now }
{
    1 <= text.len() && text.len() <= MOST && are_name_bytes(text) && !begins_digit(text)
}
