//! The placement that is chosen among all that the constraints allow: first the forced addresses, then pairs, then single statements.

ghost use Rattle.std.specs.Prelude.{◌≡◌, ◌<◌, ◌↔◌, IsOk, IfErr, IfOk};
ghost use Rattle.store_placement.specs.declared.refusal.PlaceError.{PlaceError};
ghost use Rattle.store_placement.specs.Chosen.{IsChosenList};
ghost use Rattle.store_placement.specs.Demands.{AreWithin, demands};
ghost use Rattle.store_placement.specs.Placement.{HasPlacement};
ghost use Rattle.store_placement.specs.Refusals.{Refuses};

use crate::clash::{first_clash, first_in_wrong_half};
use crate::collision::first_collision;
use crate::constraints::Constraints;
use crate::forced::all_forced;
use crate::free::{free_addresses, free_lows};
use crate::open::open_pairs;
use crate::pair::Pair;
use crate::placement::Placement;
use crate::refusal::PlaceError;
use crate::steps::{with_free, with_pairs};
use arrayvec::ArrayVec;

/// The chosen addresses of the statements, in order.
fn addresses_for(fixed: &[Option<u16>], pairs: &[Pair]) -> Result<ArrayVec<u16, 512>, PlaceError>
    requires { AreWithin fixed.now pairs.now }
    ensures ok { IfOk result (λ v. IsChosenList (demands fixed.now pairs.now) v.items) }
    ensures err { IfErr result (Refuses (demands fixed.now pairs.now)) }
{
    if let Some(s) = first_clash(pairs, fixed.len() as u16) {
        return Err(PlaceError::PairClash(s));
    }
    if let Some(s) = first_in_wrong_half(fixed, pairs) {
        return Err(PlaceError::FixedWrongHalf(s));
    }
    let forced = all_forced(fixed, pairs);
    if let Some((s, t)) = first_collision(fixed, pairs, &forced) {
        return Err(PlaceError::FixedClash(s, t));
    }
    let open = open_pairs(fixed, pairs);
    let lows = free_lows(&forced);
    if lows.len() < open.len() {
        return Err(PlaceError::NoRoom);
    }
    let placed = with_pairs(&forced, &open, &lows);
    let free = free_addresses(&placed);
    Ok(with_free(&placed, &free))
}

/// The chosen placement. Fails exactly where there is none.
pub fn place(constraints: &Constraints) -> Result<Placement, PlaceError>
    ensures ok { IsOk result ↔ HasPlacement constraints.now }
    ensures chosen { IfOk result (IsChosenList constraints.now) }
    ensures within { AreWithin constraints.now.fixed constraints.now.pairs }
    ensures err { (e : PlaceError) → (result ≡ Err e) ↔ Refuses constraints.now e }
{
    let addresses = addresses_for(&constraints.fixed, &constraints.pairs)?;
    Ok(Placement::of(addresses))
}
