//! The operations and shifts of the datapath on sums.
ghost use Rattle.std.specs.Prelude.{◌≡◌, ◌+◌, ℕ, IfOk, IfSome, bit_and, bit_or};
ghost use Rattle.mic_words.specs.Arithmetic.{half, plus};
ghost use Rattle.micro_word.specs.Operation.{alu, shifted};
ghost use Rattle.micro_terms.specs.Value.{value};
ghost use Rattle.micro_terms.specs.Meaning.{Grows, Holds};

use crate::conjunction::and_by_rule;
use crate::node::Kind;
use crate::nodes::Nodes;
use crate::term::Term;
use micro_word::{AluOp, Shift};
use std::alloc::{AllocError, Global};

fn increased(term: &Term, by: u32, alloc: Global) -> Result<Term, AllocError>
    ensures { IfOk result (λ t. (env : ℕ → ℕ) → value env t ≡ plus (value env term.now) by) }
{
    let mut copy = term.copy(alloc)?;
    copy.add_word(by);
    Ok(copy)
}

/// The result of an operation that is a sum of its operands.
fn linear(op: AluOp, a: &Term, b: &Term, alloc: Global) -> Result<Option<Term>, AllocError>
    ensures { IfOk result (λ found. IfSome found (λ t. (env : ℕ → ℕ) → value env t ≡ alu op (value env a.now) (value env b.now))) }
{
    match op {
        AluOp::A => Ok(Some(a.copy(alloc)?)),
        AluOp::B => Ok(Some(b.copy(alloc)?)),
        AluOp::NotA => Ok(Some(a.complement(alloc)?)),
        AluOp::NotB => Ok(Some(b.complement(alloc)?)),
        AluOp::Sum => Ok(Some(a.plus(b, alloc)?)),
        AluOp::SumInc => {
            let sum = a.plus(b, alloc)?;
            let term = increased(&sum, 1, alloc)?;
            Ok(Some(term))
        }
        AluOp::IncA => Ok(Some(increased(a, 1, alloc)?)),
        AluOp::IncB => Ok(Some(increased(b, 1, alloc)?)),
        AluOp::Sub => Ok(Some(b.minus(a, alloc)?)),
        AluOp::DecB => Ok(Some(increased(b, u32::MAX, alloc)?)),
        AluOp::NegA => Ok(Some(a.negated(alloc)?)),
        AluOp::Zero => Ok(Some(Term::of_word(0, alloc))),
        AluOp::One => Ok(Some(Term::of_word(1, alloc))),
        AluOp::MinusOne => Ok(Some(Term::of_word(u32::MAX, alloc))),
        AluOp::And | AluOp::Or => Ok(None),
    }
}

#[tactic(auto, unfolding(mic_words::specs::Arithmetic::half))]
fn half_of(word: u32) -> u32
    ensures { result ≡ half word }
{
    if word < 0x8000_0000 {
        word / 2
    } else {
        word / 2 + 0x8000_0000
    }
}

/// Whether the first part of a term is taken away: then it is not so in the term's complement.
fn is_turned(term: &Term) -> bool {
    if term.parts.is_empty() {
        return false;
    }
    let coefficient = term.parts[0].coefficient;
    coefficient > 0x8000_0000 || coefficient == 0x8000_0000 && term.constant % 2 == 1
}

impl Nodes {
    /// The number of the bits that the words of two numbers share, whichever is named first.
    fn shared(&mut self, left: u32, right: u32) -> Result<u32, AllocError>
        ensures value { IfOk result (λ i. Holds self.new (λ e. e.word i ≡ bit_and (e.word left) (e.word right))) }
        ensures grows { Grows self.old self.new }
    {
        if right < left {
            let turned = self.of_kind(Kind::And {
                left: right,
                right: left,
            })?;
            return Ok(turned);
        }
        self.of_kind(Kind::And { left, right })
    }

    /// The bits that both words have, by a rule or as a number of their own.
    fn and_alike(&mut self, a: &Term, b: &Term, alloc: Global) -> Result<Term, AllocError>
        ensures value { IfOk result (λ t. Holds self.new (λ e. value e.word t ≡ bit_and (value e.word a.now) (value e.word b.now))) }
        ensures grows { Grows self.old self.new }
    {
        if let Some(term) = and_by_rule(a, b, alloc)? {
            return Ok(term);
        }
        if self.share_nothing(a, b) {
            return Ok(Term::of_word(0, alloc));
        }
        let first = a.copy(alloc)?;
        let left = self.of_term(first)?;
        let second = b.copy(alloc)?;
        let right = self.of_term(second)?;
        let both = self.shared(left, right)?;
        let term = Term::once(both, alloc)?;
        Ok(term)
    }

    /// The same, by the complement of the right word where that is simpler: what `a` does not share with it, it shares with `b`.
    fn and_right(&mut self, a: &Term, b: &Term, alloc: Global) -> Result<Term, AllocError>
        ensures value { IfOk result (λ t. Holds self.new (λ e. value e.word t ≡ bit_and (value e.word a.now) (value e.word b.now))) }
        ensures grows { Grows self.old self.new }
    {
        if !is_turned(b) {
            let term = self.and_alike(a, b, alloc)?;
            return Ok(term);
        }
        let inverse = b.complement(alloc)?;
        let both = self.and_alike(a, &inverse, alloc)?;
        let term = a.minus(&both, alloc)?;
        Ok(term)
    }

    /// The bits that both words have, alike for all words that are written alike but for their order and complements.
    fn and(&mut self, a: &Term, b: &Term, alloc: Global) -> Result<Term, AllocError>
        ensures value { IfOk result (λ t. Holds self.new (λ e. value e.word t ≡ bit_and (value e.word a.now) (value e.word b.now))) }
        ensures grows { Grows self.old self.new }
    {
        if !is_turned(a) {
            let term = self.and_right(a, b, alloc)?;
            return Ok(term);
        }
        let inverse = a.complement(alloc)?;
        let both = self.and_right(&inverse, b, alloc)?;
        let term = b.minus(&both, alloc)?;
        Ok(term)
    }

    /// The bits that either word has: the sum less the bits that both have.
    fn or(&mut self, a: &Term, b: &Term, alloc: Global) -> Result<Term, AllocError>
        ensures value { IfOk result (λ t. Holds self.new (λ e. value e.word t ≡ bit_or (value e.word a.now) (value e.word b.now))) }
        ensures grows { Grows self.old self.new }
    {
        let both = self.and(a, b, alloc)?;
        let sum = a.plus(b, alloc)?;
        let term = sum.minus(&both, alloc)?;
        Ok(term)
    }

    /// The result of the ALU.
    pub fn alu(&mut self, op: AluOp, a: &Term, b: &Term, alloc: Global) -> Result<Term, AllocError>
        ensures value { IfOk result (λ t. Holds self.new (λ e. value e.word t ≡ alu op (value e.word a.now) (value e.word b.now))) }
        ensures grows { Grows self.old self.new }
    {
        if let Some(term) = linear(op, a, b, alloc)? {
            return Ok(term);
        }
        match op {
            AluOp::And => {
                let term = self.and(a, b, alloc)?;
                Ok(term)
            }
            AluOp::Or => {
                let term = self.or(a, b, alloc)?;
                Ok(term)
            }
            _ => Err(AllocError),
        }
    }

    /// The result of the shifter.
    pub fn shifted(&mut self, shift: Shift, term: &Term, alloc: Global) -> Result<Term, AllocError>
        ensures value { IfOk result (λ t. Holds self.new (λ e. value e.word t ≡ shifted shift (value e.word term.now))) }
        ensures grows { Grows self.old self.new }
    {
        match shift {
            Shift::None => {
                let same = term.copy(alloc)?;
                Ok(same)
            }
            Shift::Left8 => {
                let left = term.times(256, alloc)?;
                Ok(left)
            }
            Shift::Right1 => {
                if let Some(word) = term.word() {
                    return Ok(Term::of_word(half_of(word), alloc));
                }
                let copy = term.copy(alloc)?;
                let of = self.of_term(copy)?;
                let half = self.of_kind(Kind::Half { of })?;
                let once = Term::once(half, alloc)?;
                Ok(once)
            }
        }
    }
}
