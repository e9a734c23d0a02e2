//! The bits that two words share, where that is a sum.
ghost use Rattle.std.specs.Prelude.{◌≡◌, ℕ, IfOk, IfSome, bit_and};
ghost use Rattle.micro_terms.specs.Value.{value};

use crate::term::Term;
use std::alloc::{AllocError, Global};

fn and_word(word: u32, other: &Term, alloc: Global) -> Result<Option<Term>, AllocError>
    ensures { IfOk result (λ found. IfSome found (λ term. (env : ℕ → ℕ) → value env term ≡ bit_and word (value env other.now))) }
{
    if word == 0 {
        return Ok(Some(Term::of_word(0, alloc)));
    }
    if word == u32::MAX {
        return Ok(Some(other.copy(alloc)?));
    }
    match other.word() {
        Some(constant) => Ok(Some(Term::of_word(word & constant, alloc))),
        None => Ok(None),
    }
}

fn and_inverse(left: &Term, right: &Term, alloc: Global) -> Result<Option<Term>, AllocError>
    ensures { IfOk result (λ found. IfSome found (λ term. (env : ℕ → ℕ) → value env term ≡ bit_and (value env left.now) (value env right.now))) }
{
    let inverse = left.complement(alloc)?;
    if inverse.same(right) {
        Ok(Some(Term::of_word(0, alloc)))
    } else {
        Ok(None)
    }
}

/// What two terms share, if they are alike or inverse, or if the left one is a word that decides it.
pub fn and_by_rule(left: &Term, right: &Term, alloc: Global) -> Result<Option<Term>, AllocError>
    ensures { IfOk result (λ found. IfSome found (λ term. (env : ℕ → ℕ) → value env term ≡ bit_and (value env left.now) (value env right.now))) }
{
    if left.same(right) {
        let copy = left.copy(alloc)?;
        return Ok(Some(copy));
    }
    if let Some(word) = left.word() {
        if let Some(term) = and_word(word, right, alloc)? {
            return Ok(Some(term));
        }
    }
    and_inverse(left, right, alloc)
}
