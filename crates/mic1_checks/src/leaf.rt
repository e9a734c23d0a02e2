//! Two control stores, followed from one boundary under the same answers.
ghost use Rattle.std.specs.Prelude.{◌≡◌, ◌==◌, ℕ, IsTrue, Ok, [], ◌∷◌};
ghost use Rattle.mic1_checks.specs.Common.{Mic1, Grows, Holds, Knows};
ghost use Rattle.mic1_checks.specs.Transfer.{IsNoEnd};
ghost use Rattle.mic1_checks.specs.Carried.{AreAtBoundary, AreAtLimit, CarriesFrom};

use crate::difference::{ends_unlike, given_unlike, unlike};
use crate::finding::Difference;
use crate::laws::transfer_law;
use crate::start::{Start, path_from};
use crate::stores::Stores;
use mic1_cycles::{Answer, Path};
use mic1_passes::{Followed, Work, follow};
use micro_terms::Nodes;
use std::alloc::{AllocError, Global};

/// The cycles of both stores from one boundary to the next, each without the first cycle.
#[derive(Clone, Copy, Debug, PartialEq, Eq)]
pub struct Counts {
    /// The number of the instruction in IJVM's table, or 24 for the boot.
    pub row: u32,
    pub first: u32,
    pub second: u32,
}

/// What came of following both stores.
#[derive(Clone, Copy, Debug, PartialEq, Eq)]
pub enum Tried {
    /// Both come to the next boundary, and are alike there.
    Alike(Counts),
    /// Both meet the stack's end with the same console, or the first store goes where the map has nothing, as no run
    /// does that it interprets.
    Stopped,
    /// A path has to answer the question first.
    Asks(Answer),
    Unlike(Difference),
}

/// The second path's end beside the first one's boundary after so many cycles.
fn at_boundary(
    start: &Start,
    n: u32,
    b: Followed,
    p: &Path,
    q: &Path,
    stores: &Stores<'_>,
    nodes: &Nodes,
    alloc: Global,
) -> Result<Tried, AllocError>
    ensures alike { (c : Counts) → result ≡ Ok (Tried.Alike c) → Holds nodes.now (λ e. Knows e start.now.known →
        AreAtBoundary e stores.now.entry stores.now.other_entry start.now.row start.now.operands n b c p.now q.now) }
    ensures stopped { result ≡ Ok Tried.Stopped → ⊥ }
{
    let Followed::Boundary(k) = b else {
        return Ok(Tried::Unlike(ends_unlike(b, Followed::Boundary(n))));
    };
    if k >= 1024 {
        return Ok(Tried::Unlike(Difference::TooMuch));
    }
    match unlike(p, q, start, stores, nodes, alloc)? {
        Some(difference) => Ok(Tried::Unlike(difference)),
        None => Ok(Tried::Alike(Counts {
            row: start.row,
            first: n,
            second: k,
        })),
    }
}

/// The second path's end where the first one has met the stack's end after so many cycles.
fn at_limit(n: u32, b: Followed, p: &Path, q: &Path) -> Tried
    ensures alike { (c : Counts) → result ≡ Tried.Alike c → ⊥ }
    ensures stopped { result ≡ Tried.Stopped → AreAtLimit b p.now q.now }
{
    let Followed::Limit(k) = b else {
        return Tried::Unlike(ends_unlike(b, Followed::Limit(n)));
    };
    if k >= 1023 {
        return Tried::Unlike(Difference::TooMuch);
    }
    if p.taken != q.taken {
        return Tried::Unlike(Difference::Taken {
            is: q.taken,
            wanted: p.taken,
        });
    }
    match given_unlike(&q.given, &p.given) {
        Some(difference) => Tried::Unlike(difference),
        None => Tried::Stopped,
    }
}

/// Whether the address is no end of a run.
pub fn is_no_end(entry: u16) -> bool
    ensures { IsTrue result → IsNoEnd entry }
{
    entry != 0x0FF && entry != 0x0FE
}

/// Follows both stores from this start under these answers, and compares where they come. What the second store clocks is
/// noted.
pub fn attempt(
    start: &Start,
    stores: &Stores<'_>,
    answers: &[Answer],
    work: &mut Work,
    alloc: Global,
) -> Result<Tried, AllocError>
    requires machine { stores.now.store.now.machine ≡ Mic1 }
    requires other { stores.now.other.now.machine ≡ Mic1 }
    ensures alike { (c : Counts) → result ≡ Ok (Tried.Alike c) → Holds work.new.nodes
        (CarriesFrom start.now answers.now stores.now.store.now.words stores.now.other.now.words stores.now.entry stores.now.other_entry (c ∷ [])) }
    ensures stopped { result ≡ Ok Tried.Stopped → Holds work.new.nodes
        (CarriesFrom start.now answers.now stores.now.store.now.words stores.now.other.now.words stores.now.entry stores.now.other_entry []) }
    ensures grows { Grows work.old.nodes work.new.nodes }
{
    transfer_law();
    if !is_no_end(stores.other_entry) {
        return Ok(Tried::Unlike(Difference::EntryIsEnd));
    }
    let mut first = path_from(&start.first, stores.entry, answers, alloc)?;
    let mut second = path_from(&start.second, stores.other_entry, answers, alloc)?;
    let a = follow(
        &mut first,
        stores.store,
        stores.entry,
        &start.known,
        work,
        alloc,
    )?;
    work.clocked.clear();
    if let Followed::Asks(answer) = a {
        return Ok(Tried::Asks(answer));
    }
    if let Followed::OutOfMap(_) = a {
        return Ok(Tried::Stopped);
    }
    let b = follow(
        &mut second,
        stores.other,
        stores.other_entry,
        &start.known,
        work,
        alloc,
    )?;
    if let Followed::Asks(answer) = b {
        return Ok(Tried::Asks(answer));
    }
    match a {
        Followed::Boundary(n) => at_boundary(
            start,
            n,
            b,
            &first,
            &second,
            stores,
            &work.nodes,
            alloc,
        ),
        Followed::Limit(n) => Ok(at_limit(n, b, &first, &second)),
        _ => Ok(Tried::Unlike(ends_unlike(b, a))),
    }
}
