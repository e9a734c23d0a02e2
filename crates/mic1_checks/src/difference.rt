//! How two paths differ.
ghost use Rattle.std.specs.Prelude.{◌≡◌, Ok, None, IsTrue};
ghost use Rattle.mic1_checks.specs.Common.{Holds, Knows};
ghost use Rattle.mic1_checks.specs.Transfer.{AreAlike, LeaveAlike};

use crate::finding::{Difference, Register};
use crate::left::are_tops_alike;
use crate::start::Start;
use crate::stores::Stores;
use crate::writes::writes_unlike;
use mic1_cycles::{Known, Path};
use mic1_passes::Followed;
use micro_terms::Nodes;
use std::alloc::{AllocError, Global};

fn have_given(a: &[u32], b: &[u32]) -> bool
    ensures { IsTrue result → a.now ≡ b.now }
{
    a == b
}

/// The first place at which the bytes differ.
fn place_of_byte(a: &[u32], b: &[u32]) -> usize {
    for place in 0..a.len() {
        if a.get(place).copied() != b.get(place).copied() {
            return place;
        }
    }
    a.len()
}

/// How what was given to the console differs, if it does.
pub fn given_unlike(is: &[u32], wanted: &[u32]) -> Option<Difference>
    ensures { result ≡ None → wanted.now ≡ is.now }
{
    if have_given(wanted, is) {
        return None;
    }
    let place = place_of_byte(is, wanted);
    Some(Difference::Given {
        place,
        is: is.get(place).copied(),
        wanted: wanted.get(place).copied(),
    })
}

/// How what was done to the world differs, if it does.
fn world_unlike(
    p: &Path,
    q: &Path,
    nodes: &Nodes,
    known: &Known,
    alloc: Global,
) -> Result<Option<Difference>, AllocError>
    ensures taken { result ≡ Ok None → p.now.taken ≡ q.now.taken }
    ensures writes { result ≡ Ok None → Holds nodes.now (λ e. Knows e known.now → LeaveAlike e p.now.writes.items q.now.writes.items) }
    ensures given { result ≡ Ok None → p.now.given.items ≡ q.now.given.items }
{
    if p.taken != q.taken {
        return Ok(Some(Difference::Taken {
            is: q.taken,
            wanted: p.taken,
        }));
    }
    match writes_unlike(&q.writes, &p.writes, nodes, known, alloc)? {
        Some(difference) => Ok(Some(difference)),
        None => Ok(given_unlike(&q.given, &p.given)),
    }
}

fn of(register: Register, is: u32, wanted: u32) -> Difference {
    Difference::Register {
        register,
        is,
        wanted,
    }
}

/// How the second path's boundary differs from the first one's, if it does; of the second, the opcode may be on the way to
/// MBR. TOS and the opcode come last, because what was written decides them. The other registers are free at a boundary.
pub fn unlike(
    p: &Path,
    q: &Path,
    start: &Start,
    stores: &Stores<'_>,
    nodes: &Nodes,
    alloc: Global,
) -> Result<Option<Difference>, AllocError>
    ensures { result ≡ Ok None → Holds nodes.now (λ e. Knows e start.now.known →
        AreAlike e stores.now.entry stores.now.other_entry start.now.operands p.now q.now) }
{
    let wanted = p.symbols;
    let is = q.symbols;
    let opcode = is.byte.unwrap_or(is.mbr);
    if wanted.sp != is.sp {
        return Ok(Some(of(Register::Sp, is.sp, wanted.sp)));
    }
    if wanted.lv != is.lv {
        return Ok(Some(of(Register::Lv, is.lv, wanted.lv)));
    }
    if wanted.cpp != is.cpp {
        return Ok(Some(of(Register::Cpp, is.cpp, wanted.cpp)));
    }
    if wanted.pc != is.pc {
        return Ok(Some(of(Register::Pc, is.pc, wanted.pc)));
    }
    match world_unlike(p, q, nodes, &start.known, alloc)? {
        Some(difference) => return Ok(Some(difference)),
        None => {}
    }
    if !are_tops_alike(start.operands, p, q, nodes) {
        return Ok(Some(of(Register::Tos, is.tos, wanted.tos)));
    }
    if wanted.mbr.plain != opcode.plain {
        return Ok(Some(of(Register::Opcode, opcode.plain, wanted.mbr.plain)));
    }
    if wanted.mpc != stores.entry || is.mpc != stores.other_entry {
        return Ok(Some(Difference::TooMuch));
    }
    Ok(None)
}

/// How the ends of two paths differ that are not of one kind.
pub fn ends_unlike(is: Followed, wanted: Followed) -> Difference {
    if is == Followed::TooMuch || wanted == Followed::TooMuch {
        return Difference::TooMuch;
    }
    Difference::End { is, wanted }
}
