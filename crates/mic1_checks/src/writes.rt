//! Whether the writes of two paths leave the same memory.
ghost use Rattle.std.specs.Prelude.{◌≡◌, ◌<◌, ◌∷◌, Ok, None, IfOk, IfSome, IsTrue, length};
ghost use Rattle.std.specs.List.{Any, remove};
ghost use Rattle.mic1_checks.specs.Common.{Environment, Holds, Knows};
ghost use Rattle.mic1_checks.specs.Transfer.{LeaveAlike};

use crate::finding::Difference;
use mic1_cycles::{Known, Write};
use micro_terms::Nodes;
use std::alloc::{AllocError, Global};

/// Whether one of the writes is at the address with this number.
fn have_one_at(writes: &[Write], at: u32) -> bool
    ensures { IsTrue result → Any (λ w. w.at ≡ at) writes.now }
{
    writes.iter().any(|write| write.at == at)
}

/// The writes without those that a later one at the same number undoes.
fn lasting(writes: &[Write], alloc: Global) -> Result<Vec<Write>, AllocError>
    ensures { IfOk result (λ kept. (e : Environment) → LeaveAlike e kept.items writes.now) }
{
    let mut kept = Vec::new(alloc);
    for (place, write) in writes.iter().enumerate() {
        if !have_one_at(&writes[place + 1..], write.at) {
            kept.push(*write)?;
        }
    }
    Ok(kept)
}

/// The place of a write among others, if it may as well be the first of them: those before it are known to be at other
/// addresses.
fn place_of(
    write: Write,
    among: &[Write],
    nodes: &Nodes,
    known: &Known,
    alloc: Global,
) -> Result<Option<usize>, AllocError>
    ensures inside { IfOk result (λ found. IfSome found (λ place. place < length among.now)) }
    ensures first { IfOk result (λ found. IfSome found (λ place. Holds nodes.now (λ e. Knows e known.now →
        LeaveAlike e among.now (write ∷ remove among.now place)))) }
{
    for (place, other) in among.iter().enumerate() {
        if *other == write {
            return Ok(Some(place));
        }
        if !nodes.are_apart(other.at, write.at, &known.ranges, alloc)? {
            return Ok(None);
        }
    }
    Ok(None)
}

/// How the writes differ, unless they leave the same memory: each one that is wanted is taken out of those that are left, so
/// the order matters only where two may be at one address.
fn order_unlike(
    is: &[Write],
    wanted: &[Write],
    nodes: &Nodes,
    known: &Known,
    alloc: Global,
) -> Result<Option<Difference>, AllocError>
    ensures { result ≡ Ok None → Holds nodes.now (λ e. Knows e known.now → LeaveAlike e wanted.now is.now) }
{
    let mut left = Vec::from_slice(alloc, is)?;
    for (place, write) in wanted.iter().enumerate() {
        let Some(found) = place_of(*write, &left, nodes, known, alloc)? else {
            return Ok(Some(Difference::Write {
                place,
                is: left.first().copied(),
                wanted: Some(*write),
            }));
        };
        left.remove(found);
    }
    match left.first() {
        Some(more) => Ok(Some(Difference::Write {
            place: wanted.len(),
            is: Some(*more),
            wanted: None,
        })),
        None => Ok(None),
    }
}

/// How the writes differ, unless they leave the same memory, if need be without those that a later one undoes.
pub fn writes_unlike(
    is: &[Write],
    wanted: &[Write],
    nodes: &Nodes,
    known: &Known,
    alloc: Global,
) -> Result<Option<Difference>, AllocError>
    ensures { result ≡ Ok None → Holds nodes.now (λ e. Knows e known.now → LeaveAlike e wanted.now is.now) }
{
    let Some(difference) = order_unlike(is, wanted, nodes, known, alloc)? else {
        return Ok(None);
    };
    let left = lasting(is, alloc)?;
    let needed = lasting(wanted, alloc)?;
    match order_unlike(&left, &needed, nodes, known, alloc)? {
        Some(_) => Ok(Some(difference)),
        None => Ok(None),
    }
}
