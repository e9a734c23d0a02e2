//! What a number stands for.
ghost use Rattle.std.specs.Prelude.{◌≡◌, ◌<◌, ℕ, IsTrue};
ghost use Rattle.micro_terms.specs.Environment.{Environment};
ghost use Rattle.micro_terms.specs.Meaning.{IsNode, is_byte, word_of_kind};

use crate::term::Term;

/// A word that is no sum. Each field is the number of a word, but `before`, which is a count.
#[derive(Clone, Copy, Debug, PartialEq, Eq)]
pub enum Kind {
    /// The bits that both words have.
    And {
        left: u32,
        right: u32,
    },
    /// The word shifted to the right by one place, with its sign.
    Half {
        of: u32,
    },
    /// The memory word at an address where the run starts.
    Word {
        at: u32,
    },
    /// The byte at a byte address where the run starts.
    Byte {
        at: u32,
    },
    /// That byte with its sign.
    SignedByte {
        at: u32,
    },
    /// The input byte that is taken after so many others.
    Input {
        before: u32,
    },
    /// The word address of a byte address.
    Quarter {
        of: u32,
    },
    /// The byte of a word that stands at a byte address.
    Piece {
        of: u32,
        at: u32,
    },
    /// That byte with its sign.
    SignedPiece {
        of: u32,
        at: u32,
    },
    /// One word if two are equal, and else another.
    Choice {
        left: u32,
        right: u32,
        same: u32,
        other: u32,
    },
}

/// What the table says of a number.
#[derive(Drop)]
pub enum Node {
    /// It stands for any word.
    Free,
    Sum(Term),
    Other(Kind),
}

/// Whether two nodes are written alike, and so say the same.
pub fn is_same(a: &Node, b: &Node) -> bool
    ensures { IsTrue result → (e : Environment) (x : ℕ) → IsNode e x a.now → IsNode e x b.now }
{
    match (a, b) {
        (Node::Sum(s), Node::Sum(t)) => s.same(t),
        (Node::Other(k), Node::Other(l)) => k == l,
        _ => false,
    }
}

/// Whether a word of this kind is a byte without a sign.
#[tactic(auto, unfolding(console_port::specs::World::byte_in))]
pub fn is_byte_kind(kind: Kind) -> bool
    ensures is { result ≡ is_byte kind }
    ensures small { IsTrue result → (e : Environment) → word_of_kind e kind < 256 }
{
    match kind {
        Kind::Byte { .. } | Kind::Piece { .. } => true,
        _ => false,
    }
}
