//! Whether each read of a method's own local comes after a store to it.

ghost use Rattle.std.specs.Prelude.{◌≡◌, ◌+◌, ◌*◌, ◌/◌, ◌<◌, ◌≤◌, ◌↔◌, ℕ, length, slice_get, Some, false, IfOk, IfErr, OnOk, IfSome};
ghost use Rattle.verifier_facts.specs.declared.error.VerifyError.{VerifyError};
ghost use Rattle.verifier_locals.specs.declared.graph.Node.{Node};
ghost use Rattle.verifier_reach.specs.declared.kept.Kept.{Kept};
ghost use Rattle.verifier_locals.specs.declared.unset.Wanted.{Wanted};
ghost use Rattle.verifier_facts.specs.Prelude.{IsOwn, IsReachedMethod, IsTrueOf};
ghost use Rattle.verifier_reach.specs.Prelude.{IsClosed, States};
ghost use Rattle.verifier_locals.specs.Graph.{IsGraph};
ghost use Rattle.verifier_locals.specs.Shortcut.{IsShortGraph};
ghost use Rattle.verifier_locals.specs.LocalSet.{IsIn};
ghost use Rattle.verifier_locals.specs.Trace.{IsReady};
ghost use Rattle.verifier_locals.specs.Unset.{AreSet, Wants, AreWanted};

use crate::graph::Node;
use crate::local_set::LocalSet;
use crate::shortcut::shortened;
use crate::trace::Trace;
use ijvm_image::Image;
use std::alloc::{AllocError, Global};
use verifier_facts::VerifyError;
use verifier_reach::{Kept, others_of, params_of};

/// A method, by its entry, and a group of its locals.
#[derive(Clone, Copy, PartialEq, Eq, PartialOrd, Ord)]
pub struct Wanted {
    entry: u32,
    group: u32,
}

/// The method's own locals in the group.
fn own_locals(image: &Image, wanted: Wanted) -> LocalSet
    requires { wanted.group < 1024 }
    ensures { (k : ℕ) → k / 64 ≡ wanted.group → IsIn wanted.group result k ↔ IsOwn image.now.text wanted.entry k }
{
    let first = params_of(image, wanted.entry);
    let end = first + others_of(image, wanted.entry);
    let mut locals = LocalSet::EMPTY;
    for place in 0..64 {
        let local = 64 * wanted.group + place;
        if first <= local && local < end {
            locals = locals.with(place);
        }
    }
    locals
}

/// The method and the group of the own local that is read here.
fn wanted_at(image: &Image, seen: &[Option<Kept>], graph: &[Node], at: u32) -> Option<Wanted>
    requires seen { at < length seen.now }
    requires graph { at < length graph.now }
    ensures only { IfSome result (Wants image.now seen.now graph.now at) }
    ensures small { IfSome result (λ w. w.group < 1024) }
    ensures all { (w : Wanted) → Wants image.now seen.now graph.now at w → result ≡ Some w }
{
    let entry = seen[at as usize]?.unit?;
    let local = u32::from(graph[at as usize].reads?);
    if local < params_of(image, entry) {
        return None;
    }
    Some(Wanted {
        entry,
        group: local / 64,
    })
}

/// What all reads want, sorted, so that equal ones stand together.
fn wanted_of(
    alloc: Global,
    image: &Image,
    seen: &[Option<Kept>],
    graph: &[Node],
) -> Result<Vec<Wanted>, AllocError>
    requires graph { length graph.now ≡ length seen.now }
    requires long { length seen.now ≤ 65536 }
    ensures wanted { IfOk result (λ wanted. AreWanted image.now seen.now graph.now (length seen.now) wanted.items) }
    ensures few { IfOk result (λ wanted. length wanted.items ≤ length seen.now) }
{
    let mut wanted = Vec::new(alloc);
    for at in 0..seen.len() {
        if let Some(here) = wanted_at(image, seen, graph, at as u32) {
            wanted.push(here)?;
        }
    }
    wanted.sort()?;
    Ok(wanted)
}

/// The method's own locals in the group are set before each read.
fn check_wanted(
    image: &Image,
    short: &[Node],
    trace: &mut Trace,
    search: u32,
    wanted: Wanted,
) -> Result<(), VerifyError>
    requires long { length image.now.text ≤ 65536 }
    requires short { IsShortGraph image.now short.now }
    requires ready { IsReady search (length short.now) trace.old.marks.items trace.old.todo.items }
    requires small { wanted.group < 1024 }
    requires method { IsReachedMethod image.now wanted.entry }
    ensures set { OnOk result (AreSet image.now wanted) }
    ensures ready { OnOk result (IsReady (search + 1) (length short.now) trace.new.marks.items trace.new.todo.items) }
    ensures err { IfErr result (λ e. States image.now e) }
{
    let locals = own_locals(image, wanted);
    match trace.trace(short, search, wanted.group, wanted.entry + 4, locals) {
        Ok(None) => Ok(()),
        Ok(Some((at, local))) => Err(VerifyError::UnsetLocal(at, local)),
        Err(_) => Err(VerifyError::OutOfMemory),
    }
}

/// What stands here does not stand before, if equal ones stand together.
fn is_new(wanted: &[Wanted], i: usize) -> bool
    requires { i < length wanted.now }
    ensures { result ≡ false → (j : ℕ) × (j + 1 ≡ i) × (slice_get wanted.now j ≡ slice_get wanted.now i) }
{
    i == 0 || wanted[i] != wanted[i - 1]
}

/// No read of an own local comes before a store to it.
pub fn check_locals(
    alloc: Global,
    image: &Image,
    seen: &[Option<Kept>],
    graph: &[Node],
) -> Result<(), VerifyError>
    requires long { length image.now.text ≤ 65536 }
    requires closed { IsClosed image.now seen.now }
    requires graph { IsGraph image.now seen.now graph.now }
    ensures ok { OnOk result ((z at k : ℕ) → IsTrueOf image.now z (VerifyError.UnsetLocal at k) → ⊥) }
    ensures err { IfErr result (λ e. States image.now e) }
{
    let wanted = wanted_of(alloc, image, seen, graph)?;
    // Without its ways to dead ends, a branch may lead to only one address.
    let once = shortened(alloc, graph)?;
    let short = shortened(alloc, &once)?;
    let mut trace = Trace::new(alloc, short.len())?;
    for i in 0..wanted.len() {
        if is_new(&wanted, i) {
            check_wanted(image, &short, &mut trace, i as u32 + 1, wanted[i])?;
        }
    }
    Ok(())
}
