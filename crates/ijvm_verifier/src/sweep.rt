//! What stands at each byte of the text: no byte belongs to two reached instructions or headers.

ghost use Rattle.std.specs.Prelude.{◌≡◌, ◌+◌, ◌*◌, ◌<◌, ◌≤◌, ℕ, true, false, IfOk, IfErr, length};
ghost use Rattle.verifier_facts.specs.declared.error.VerifyError.{VerifyError};
ghost use Rattle.verifier_reach.specs.declared.kept.Kept.{Kept};
ghost use Rattle.verifier_facts.specs.declared.kind.Kind.{Kind};
ghost use Rattle.verifier_facts.specs.Prelude.{IsReachedMethod, IsTrueOf, IsMethodCount, IsKind, AreKinds};
ghost use Rattle.verifier_reach.specs.Prelude.{IsClosed, States};
ghost use Rattle.ijvm_verifier.specs.Sweep.{IsSwept};

use ijvm_image::Image;
use std::alloc::Global;
use verifier_facts::{Kind, VerifyError};
use verifier_reach::{Kept, decode};

/// The header of a reached method begins here.
pub fn is_entry(image: &Image, seen: &[Option<Kept>], at: u32) -> bool
    requires { IsClosed image.now seen.now }
    ensures yes { result ≡ true → IsReachedMethod image.now at }
    ensures no { result ≡ false → ¬ IsReachedMethod image.now at }
{
    let start = at as usize + 4;
    if start >= seen.len() {
        return false;
    }
    match seen[start] {
        None => false,
        Some(here) => match here.unit {
            None => false,
            Some(entry) => entry == at,
        },
    }
}

/// The end of the pieces so far, with the instruction that begins here, if one is reached.
fn sweep_code(image: &Image, seen: &[Option<Kept>], at: u32, end: u32) -> Result<u32, VerifyError>
    requires inside { at < length image.now.text }
    requires long { length image.now.text ≤ 65536 }
    requires closed { IsClosed image.now seen.now }
    requires swept { IsSwept image.now (2 * at) end }
    ensures ok { IfOk result (λ stop. IsSwept image.now (2 * at + 1) stop) }
    ensures err { IfErr result (λ e. States image.now e) }
{
    match seen[at as usize] {
        None => Ok(end),
        Some(_) => match decode(image, at) {
            None => unreachable!(),
            Some(instr) => if at < end {
                Err(VerifyError::Overlap(at))
            } else {
                Ok(at + instr.row().size())
            },
        },
    }
}

/// The end of the pieces so far, with the header that begins here, if one is reached.
fn sweep_header(image: &Image, seen: &[Option<Kept>], at: u32, end: u32) -> Result<u32, VerifyError>
    requires inside { at < length image.now.text }
    requires long { length image.now.text ≤ 65536 }
    requires closed { IsClosed image.now seen.now }
    requires swept { IsSwept image.now (2 * at + 1) end }
    ensures ok { IfOk result (λ stop. IsSwept image.now (2 * at + 2) stop) }
    ensures err { IfErr result (λ e. States image.now e) }
{
    if !is_entry(image, seen, at) {
        Ok(end)
    } else if at < end {
        Err(VerifyError::Overlap(at))
    } else {
        Ok(at + 4)
    }
}

/// What stands at the address, where the pieces that begin before it end here.
fn kind_of(image: &Image, seen: &[Option<Kept>], at: u32, end: u32) -> Kind
    requires inside { at < length image.now.text }
    requires closed { IsClosed image.now seen.now }
    requires swept { IsSwept image.now (2 * at) end }
    ensures { IsKind image.now at result }
{
    match seen[at as usize] {
        Some(_) => Kind::Start,
        None => if is_entry(image, seen, at) {
            Kind::Header
        } else if at < end {
            Kind::Inside
        } else {
            Kind::Unreached
        },
    }
}

/// The kinds of all addresses.
pub fn sweep_all(
    alloc: Global,
    image: &Image,
    seen: &[Option<Kept>],
) -> Result<Vec<Kind>, VerifyError>
    requires long { length image.now.text ≤ 65536 }
    requires closed { IsClosed image.now seen.now }
    ensures kinds { IfOk result (λ kinds. AreKinds image.now kinds.items) }
    ensures apart { IfOk result (λ _. (z byte : ℕ) → IsTrueOf image.now z (VerifyError.Overlap byte) → ⊥) }
    ensures err { IfErr result (λ e. States image.now e) }
{
    let mut kinds = Vec::new(alloc);
    let mut end: u32 = 0;
    for at in 0..seen.len() {
        let at = at as u32;
        kinds.push(kind_of(image, seen, at, end))?;
        end = sweep_code(image, seen, at, end)?;
        end = sweep_header(image, seen, at, end)?;
    }
    Ok(kinds)
}

/// The number of reached methods.
pub fn count_methods(image: &Image, seen: &[Option<Kept>]) -> u32
    requires long { length image.now.text ≤ 65536 }
    requires closed { IsClosed image.now seen.now }
    ensures { IsMethodCount image.now result }
{
    let mut count: u32 = 0;
    for at in 0..seen.len() {
        if is_entry(image, seen, at as u32) {
            count += 1;
        }
    }
    count
}
