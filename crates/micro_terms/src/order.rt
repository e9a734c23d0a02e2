//! Tables in which each node names earlier numbers alone.
ghost use Rattle.std.specs.Prelude.{◌<◌, IsTrue};
ghost use Rattle.std.specs.List.{All};
ghost use Rattle.micro_terms.specs.Ordered.{AreOrdered, HasEnvironments, NamesBelow, NamesKindBelow};

use crate::node::{Kind, Node};
use crate::part::Part;

fn names_kind_below(kind: Kind, n: u32) -> bool
    ensures { IsTrue result → NamesKindBelow n kind }
{
    match kind {
        Kind::And { left, right } => left < n && right < n,
        Kind::Half { of } => of < n,
        Kind::Word { at } => at < n,
        Kind::Byte { at } => at < n,
        Kind::SignedByte { at } => at < n,
        Kind::Input { before: _ } => true,
        Kind::Quarter { of } => of < n,
        Kind::Piece { of, at } => of < n && at < n,
        Kind::SignedPiece { of, at } => of < n && at < n,
        Kind::Choice {
            left,
            right,
            same,
            other,
        } => left < n && right < n && same < n && other < n,
    }
}

fn are_parts_below(parts: &[Part], n: u32) -> bool
    ensures { IsTrue result → All (λ p. p.number < n) parts.now }
{
    parts.iter().all(|part| part.number < n)
}

fn names_below(node: &Node, n: u32) -> bool
    ensures { IsTrue result → NamesBelow n node.now }
{
    match node {
        Node::Free => true,
        Node::Sum(term) => are_parts_below(&term.parts, n),
        Node::Other(kind) => names_kind_below(*kind, n),
    }
}

/// Whether each node names earlier numbers alone. A table that was made by `Nodes` does, unless it began with others.
pub fn is_ordered(table: &[Node]) -> bool
    ensures { IsTrue result → AreOrdered table.now }
{
    for i in 0..table.len() {
        let Ok(n) = u32::try_from(i) else {
            return false;
        };
        if !names_below(&table[i], n) {
            return false;
        }
    }
    true
}

/// Such a table fits some environment, whatever the start and the words of the free numbers.
pub fn environments_exist()
    ensures { HasEnvironments }
{}
