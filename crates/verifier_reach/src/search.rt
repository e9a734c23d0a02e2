//! The search for the reached addresses, with their units and depths.

ghost use Rattle.std.specs.Prelude.{◌≡◌, ◌+◌, ◌*◌, ◌<◌, ◌≤◌, ℕ, [], length, slice_get, replicate, Some, None, IfOk, IfErr, OnOk, IfSome, IfNone};
ghost use Rattle.verifier_facts.specs.declared.error.VerifyError.{VerifyError};
ghost use Rattle.verifier_facts.specs.Prelude.{Reached, IsTrueOf};
ghost use Rattle.verifier_reach.specs.Search.{kept_at, States, IsChecked, IsTaken, IsDone, AllFollow, IsSearch, Grows, IsRunning, IsClosed, IsDecided, empties, AreKept, IsBegun};

use crate::checks::{Found, check_at};
use crate::code::{constant_at, decode, text_len};
use crate::kept::Kept;
use ijvm_image::Image;
use ijvm_instr::{Flow, target_of};
use std::alloc::{AllocError, Global};
use verifier_facts::VerifyError;

/// What is kept of each address, and the addresses that wait to be visited.
#[derive(Drop)]
pub struct Search {
    pub seen: Vec<Option<Kept>>,
    pub todo: Vec<u32>,
}

/// The address is kept as it is reached now.
fn check_same(image: &Image, kept: Kept, here: Kept, at: u32) -> Result<(), VerifyError>
    requires kept { Reached image.now (kept_at kept at) }
    requires here { Reached image.now (kept_at here at) }
    ensures unit { OnOk result (kept.unit ≡ here.unit) }
    ensures depth { OnOk result (kept.depth ≡ here.depth) }
    ensures err { IfErr result (λ e. States image.now e) }
{
    if kept.unit != here.unit {
        match decode(image, at) {
            None => Err(VerifyError::BadCode(at)),
            Some(_) => Err(VerifyError::Overlap(at)),
        }
    } else if kept.depth < here.depth {
        Err(VerifyError::DepthDiffers(at, kept.depth, here.depth))
    } else if here.depth < kept.depth {
        Err(VerifyError::DepthDiffers(at, here.depth, kept.depth))
    } else {
        Ok(())
    }
}

impl Search {
    fn keep(&mut self, image: &Image, here: Kept, at: u32) -> Result<(), VerifyError>
        requires search { IsSearch image.now self.old.seen.items self.old.todo.items }
        requires empty { slice_get self.old.seen.items at ≡ Some None }
        requires reached { Reached image.now (kept_at here at) }
        requires low { here.depth + 2 * empties self.old.seen.items ≤ 2 * length image.now.text + 2 }
        ensures search { OnOk result (IsSearch image.now self.new.seen.items self.new.todo.items) }
        ensures grows { OnOk result (Grows self.old.seen.items self.new.seen.items self.old.todo.items self.new.todo.items) }
        ensures here { OnOk result (slice_get self.new.seen.items at ≡ Some (Some here)) }
        ensures err { IfErr result (λ e. States image.now e) }
    {
        self.todo.push(at)?;
        self.seen[at as usize] = Some(here);
        Ok(())
    }

    fn arrive(&mut self, image: &Image, here: Kept, at: u32) -> Result<(), VerifyError>
        requires search { IsSearch image.now self.old.seen.items self.old.todo.items }
        requires inside { at < length image.now.text }
        requires reached { Reached image.now (kept_at here at) }
        requires low { here.depth + 2 * empties self.old.seen.items ≤ 2 * length image.now.text + 2 }
        ensures search { OnOk result (IsSearch image.now self.new.seen.items self.new.todo.items) }
        ensures grows { OnOk result (Grows self.old.seen.items self.new.seen.items self.old.todo.items self.new.todo.items) }
        ensures here { OnOk result (slice_get self.new.seen.items at ≡ Some (Some here)) }
        ensures err { IfErr result (λ e. States image.now e) }
    {
        match self.seen[at as usize] {
            None => self.keep(image, here, at),
            Some(kept) => check_same(image, kept, here, at),
        }
    }
}

impl Search {
    /// The start of the called method is kept.
    fn enter(
        &mut self,
        image: &Image,
        here: Kept,
        at: u32,
        found: Found,
        index: u16,
    ) -> Result<(), VerifyError>
        requires long { length image.now.text ≤ 65536 }
        requires search { IsSearch image.now self.old.seen.items self.old.todo.items }
        requires calls { found.row.flow ≡ Flow.Call index }
        requires reached { Reached image.now (kept_at here at) }
        requires checked { IsChecked image.now (kept_at here at) found.row found.need }
        ensures search { OnOk result (IsSearch image.now self.new.seen.items self.new.todo.items) }
        ensures grows { OnOk result (Grows self.old.seen.items self.new.seen.items self.old.todo.items self.new.todo.items) }
        ensures entry { OnOk result ((e : ℕ) → slice_get image.now.pool index ≡ Some e → IsBegun self.new.seen.items e) }
        ensures err { IfErr result (λ e. States image.now e) }
    {
        match constant_at(image, index) {
            None => unreachable!(),
            Some(entry) => {
                let start = Kept {
                    unit: Some(entry),
                    depth: 0,
                };
                self.arrive(image, start, entry + 4)
            }
        }
    }

    /// Where the unit goes on after a checked instruction is kept, with the changed depth.
    fn spread(
        &mut self,
        image: &Image,
        here: Kept,
        at: u32,
        found: Found,
    ) -> Result<(), VerifyError>
        requires long { length image.now.text ≤ 65536 }
        requires search { IsSearch image.now self.old.seen.items self.old.todo.items }
        requires kept { slice_get self.old.seen.items at ≡ Some (Some here) }
        requires checked { IsChecked image.now (kept_at here at) found.row found.need }
        requires few { found.row.gives ≤ 2 }
        ensures search { OnOk result (IsSearch image.now self.new.seen.items self.new.todo.items) }
        ensures grows { OnOk result (Grows self.old.seen.items self.new.seen.items self.old.todo.items self.new.todo.items) }
        ensures all { OnOk result (AllFollow image.now self.new.seen.items here at) }
        ensures err { IfErr result (λ e. States image.now e) }
    {
        let next = Kept {
            unit: here.unit,
            depth: here.depth - found.need + found.row.gives,
        };
        let following = at + found.row.size();
        match found.row.flow {
            Flow::Next => self.arrive(image, next, following),
            Flow::Jump(offset) => self.arrive(image, next, target_of(at, offset)),
            Flow::Branch(offset) => {
                self.arrive(image, next, following)?;
                self.arrive(image, next, target_of(at, offset))
            }
            Flow::Call(index) => {
                self.arrive(image, next, following)?;
                self.enter(image, here, at, found, index)
            }
            Flow::Return => Ok(()),
            Flow::End => Ok(()),
        }
    }

    /// The waiting address is looked at, and what follows from it is kept.
    fn visit(&mut self, image: &Image, here: Kept, at: u32) -> Result<(), VerifyError>
        requires long { length image.now.text ≤ 65536 }
        requires search { IsSearch image.now self.old.seen.items self.old.todo.items }
        requires kept { slice_get self.old.seen.items at ≡ Some (Some here) }
        ensures search { OnOk result (IsSearch image.now self.new.seen.items self.new.todo.items) }
        ensures grows { OnOk result (Grows self.old.seen.items self.new.seen.items self.old.todo.items self.new.todo.items) }
        ensures done { OnOk result (IsDone image.now self.new.seen.items here at) }
        ensures err { IfErr result (λ e. States image.now e) }
    {
        let found = check_at(image, here, at)?;
        self.spread(image, here, at, found)
    }

    /// The next waiting address, if there is one.
    fn next(&mut self) -> Option<(Kept, u32)>
        requires { AreKept self.old.seen.items self.old.todo.items }
        ensures seen { self.new.seen.items ≡ self.old.seen.items }
        ensures some { IfSome result (IsTaken self.old.seen.items self.old.todo.items self.new.todo.items) }
        ensures none { IfNone result (self.old.todo.items ≡ []) }
    {
        match self.todo.pop() {
            None => None,
            Some(at) => match self.seen[at as usize] {
                Some(kept) => Some((kept, at)),
                None => unreachable!(),
            },
        }
    }
}

fn nothing_seen(alloc: Global, many: usize) -> Result<Vec<Option<Kept>>, AllocError>
    ensures { IfOk result (λ v. v.items ≡ replicate many None) }
{
    vec![in alloc; None; many]
}

/// The start of main is kept, and nothing else yet.
fn begun(alloc: Global, image: &Image) -> Result<Search, VerifyError>
    requires { 0 < length image.now.text }
    ensures ok { IfOk result (λ s. IsRunning image.now s.seen.items s.todo.items) }
    ensures err { IfErr result (λ e. States image.now e) }
{
    let seen = nothing_seen(alloc, text_len(image) as usize)?;
    let mut search = Search {
        seen,
        todo: Vec::new(alloc),
    };
    let start = Kept {
        unit: None,
        depth: 0,
    };
    search.arrive(image, start, 0)?;
    Ok(search)
}

/// All reached addresses, with their units and depths.
pub fn search_all(alloc: Global, image: &Image) -> Result<Vec<Option<Kept>>, VerifyError>
    ensures fits { length image.now.text ≤ 65536 }
    ensures ok { IfOk result (λ seen. IsClosed image.now seen.items) }
    ensures decided { IfOk result (λ _. (z : ℕ) (e : VerifyError) → IsDecided e → IsTrueOf image.now z e → ⊥) }
    ensures err { IfErr result (λ e. States image.now e) }
{
    if text_len(image) == 0 {
        return Err(VerifyError::BadCode(0));
    }
    let mut search = begun(alloc, image)?;
    while let Some((here, at)) = search.next() {
        search.visit(image, here, at)?;
    }
    Ok(search.seen)
}
