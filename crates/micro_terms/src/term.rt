//! Sums of numbered words.
ghost use Rattle.std.specs.Prelude.{◌≡◌, ℕ, ◌*◌, ◌+◌, ◌≤◌, ◌<◌, ◌^◌, ◌%◌, IfOk, OnOk, OnErr, IsTrue, IfSome, vec_len};
ghost use Rattle.mic_words.specs.Arithmetic.{wrap, plus, minus, negation, complement};
ghost use Rattle.micro_terms.specs.Value.{value, weight};

use crate::part::Part;
use std::alloc::{AllocError, Global};

/// A constant and multiples of numbered words, added modulo 2^32. The parts are kept in the order of their numbers, so
/// that equal sums are mostly written alike; no contract relies on it.
#[derive(Drop)]
pub struct Term {
    pub constant: u32,
    pub parts: Vec<Part>,
}

fn word_of(constant: u32, parts: &[Part]) -> Option<u32>
    ensures { IfSome result (λ word. (env : ℕ → ℕ) → wrap (constant + weight env parts.now) ≡ word) }
{
    if parts.is_empty() {
        Some(constant)
    } else {
        None
    }
}

fn single_of(constant: u32, parts: &[Part]) -> Option<u32>
    ensures { IfSome result (λ n. (env : ℕ → ℕ) → env n < 2 ^ 32 → wrap (constant + weight env parts.now) ≡ env n) }
{
    if constant != 0 || parts.len() != 1 {
        return None;
    }
    let part = parts[0];
    if part.coefficient == 1 {
        Some(part.number)
    } else {
        None
    }
}

/// Whether all coefficients are multiples of 256.
fn are_multiples(parts: &[Part]) -> bool
    ensures { IsTrue result → (env : ℕ → ℕ) → weight env parts.now % 256 ≡ 0 }
{
    for part in parts {
        if part.coefficient % 256 != 0 {
            return false;
        }
    }
    true
}

impl Term {
    /// A word.
    pub fn of_word(word: u32, alloc: Global) -> Term
        ensures { (env : ℕ → ℕ) → value env result ≡ word }
    {
        Term {
            constant: word,
            parts: Vec::new(alloc),
        }
    }

    /// The word of a number.
    pub fn once(number: u32, alloc: Global) -> Result<Term, AllocError>
        ensures { IfOk result (λ term. (env : ℕ → ℕ) → env number < 2 ^ 32 → value env term ≡ env number) }
    {
        let mut parts = Vec::new(alloc);
        parts.push(Part {
            coefficient: 1,
            number,
        })?;
        Ok(Term { constant: 0, parts })
    }

    /// The number whose word the term is, if it is written as that alone.
    #[tactic(auto, unfolding(crate::specs::Value::value))]
    pub fn single(&self) -> Option<u32>
        ensures { IfSome result (λ n. (env : ℕ → ℕ) → env n < 2 ^ 32 → value env self.now ≡ env n) }
    {
        single_of(self.constant, &self.parts)
    }

    /// The word that the term is in every environment, if it has no parts.
    #[tactic(auto, unfolding(crate::specs::Value::value))]
    pub fn word(&self) -> Option<u32>
        ensures { IfSome result (λ word. (env : ℕ → ℕ) → value env self.now ≡ word) }
    {
        word_of(self.constant, &self.parts)
    }

    /// Whether the low byte is 0 because all multiples are of 256.
    #[tactic(auto, unfolding(crate::specs::Value::value, mic_words::specs::Arithmetic::wrap))]
    pub fn has_no_low_byte(&self) -> bool
        ensures { IsTrue result → (env : ℕ → ℕ) → value env self.now % 256 ≡ 0 }
    {
        self.constant % 256 == 0 && are_multiples(&self.parts)
    }

    pub fn copy(&self, alloc: Global) -> Result<Term, AllocError>
        ensures { IfOk result (λ term. (env : ℕ → ℕ) → value env term ≡ value env self.now) }
    {
        Ok(Term {
            constant: self.constant,
            parts: Vec::from_slice(alloc, &self.parts)?,
        })
    }

    /// So many times the term.
    pub fn times(&self, factor: u32, alloc: Global) -> Result<Term, AllocError>
        ensures { IfOk result (λ term. (env : ℕ → ℕ) → value env term ≡ wrap (factor * value env self.now)) }
    {
        let mut parts = Vec::new(alloc);
        for part in &self.parts {
            let coefficient = part.coefficient.wrapping_mul(factor);
            if coefficient != 0 {
                parts.push(Part {
                    coefficient,
                    number: part.number,
                })?;
            }
        }
        Ok(Term {
            constant: self.constant.wrapping_mul(factor),
            parts,
        })
    }

    pub fn add_word(&mut self, word: u32)
        ensures { (env : ℕ → ℕ) → value env self.new ≡ plus (value env self.old) word }
    {
        self.constant = self.constant.wrapping_add(word);
    }

    /// Where a number stands among the parts, or is to stand.
    fn place_of(&self, number: u32) -> usize
        ensures { result ≤ vec_len self.now.parts }
    {
        for (place, part) in self.parts.iter().enumerate() {
            if part.number >= number {
                return place;
            }
        }
        self.parts.len()
    }

    fn add_part(&mut self, part: Part) -> Result<(), AllocError>
        ensures ok { OnOk result ((env : ℕ → ℕ) → value env self.new ≡ plus (value env self.old) (part.coefficient * env part.number)) }
        ensures err { OnErr result ((env : ℕ → ℕ) → value env self.new ≡ value env self.old) }
    {
        let place = self.place_of(part.number);
        if place < self.parts.len() && self.parts[place].number == part.number {
            let coefficient = self.parts[place].coefficient.wrapping_add(part.coefficient);
            if coefficient == 0 {
                self.parts.remove(place);
            } else {
                self.parts[place] = Part {
                    coefficient,
                    number: part.number,
                };
            }
            return Ok(());
        }
        self.parts.insert(place, part)?;
        Ok(())
    }

    pub fn plus(&self, other: &Term, alloc: Global) -> Result<Term, AllocError>
        ensures { IfOk result (λ term. (env : ℕ → ℕ) → value env term ≡ plus (value env self.now) (value env other.now)) }
    {
        let mut total = Term {
            constant: self.constant.wrapping_add(other.constant),
            parts: Vec::from_slice(alloc, &self.parts)?,
        };
        for part in &other.parts {
            total.add_part(*part)?;
        }
        Ok(total)
    }

    pub fn negated(&self, alloc: Global) -> Result<Term, AllocError>
        ensures { IfOk result (λ term. (env : ℕ → ℕ) → value env term ≡ negation (value env self.now)) }
    {
        self.times(u32::MAX, alloc)
    }

    /// The term with every bit inverted.
    pub fn complement(&self, alloc: Global) -> Result<Term, AllocError>
        ensures { IfOk result (λ term. (env : ℕ → ℕ) → value env term ≡ complement (value env self.now)) }
    {
        let mut term = self.negated(alloc)?;
        term.add_word(u32::MAX);
        Ok(term)
    }

    pub fn minus(&self, other: &Term, alloc: Global) -> Result<Term, AllocError>
        ensures { IfOk result (λ term. (env : ℕ → ℕ) → value env term ≡ minus (value env self.now) (value env other.now)) }
    {
        let negated = other.negated(alloc)?;
        self.plus(&negated, alloc)
    }

    /// Whether the terms are written alike, and so have one value in every environment.
    pub fn same(&self, other: &Term) -> bool
        ensures { IsTrue result → (env : ℕ → ℕ) → value env self.now ≡ value env other.now }
    {
        self.constant == other.constant && self.parts == other.parts
    }
}
