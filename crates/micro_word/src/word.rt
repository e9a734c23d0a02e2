//! The words of both machines, each exactly one statement's.
ghost use Rattle.std.specs.Prelude.{◌≡◌, nat_lt, IsTrue, Some, None, IfSome, IfNone};
ghost use Rattle.mic_words.specs.declared.machine.Machine.TheVariants.{Mic1, Mic2};
ghost use Rattle.micro_word.specs.declared.statement.Placed.{Placed};
ghost use Rattle.micro_word.specs.Layout.{fields_of};
ghost use Rattle.micro_word.specs.Coding.{microword_of, statement_of};
ghost use Rattle.micro_word.specs.Words.{is_valid, IsCanonical, is_canonical, decoded_as, word_end};

use crate::layout::{Fields, fields1, fields2, word_with1, word_with2};
use crate::statement::Placed;
use mic_words::Machine;
use std::marker::Model;

/// A canonical word of Mic-1.
#[derive(Clone, Copy, Debug, PartialEq, Eq)]
pub struct Word1 {
    bits: u64,
}

impl Model for Word1 {
    ghost use Rattle.std.specs.Prelude.{ℕ, IsTrue};
    ghost use Rattle.mic_words.specs.declared.machine.Machine.TheVariants.{Mic1};
    ghost use Rattle.micro_word.specs.Words.{is_canonical};

    ghost Value = { ℕ };

    ghost view = { λ w. w.bits };

    ghost inverse = { λ bits. record { bits = bits } };

    ghost invariant = { λ w. IsTrue (is_canonical Mic1 w.bits) };
}

/// A canonical word of Mic-2.
#[derive(Clone, Copy, Debug, PartialEq, Eq)]
pub struct Word2 {
    bits: u64,
}

impl Model for Word2 {
    ghost use Rattle.std.specs.Prelude.{ℕ, IsTrue};
    ghost use Rattle.mic_words.specs.declared.machine.Machine.TheVariants.{Mic2};
    ghost use Rattle.micro_word.specs.Words.{is_canonical};

    ghost Value = { ℕ };

    ghost view = { λ w. w.bits };

    ghost inverse = { λ bits. record { bits = bits } };

    ghost invariant = { λ w. IsTrue (is_canonical Mic2 w.bits) };
}

fn bits_of(machine: Machine, placed: &Placed) -> u64
    ensures { result ≡ microword_of machine placed.now }
{
    let fields = Fields::of_placed(machine, placed);
    match machine {
        Machine::Mic1 => word_with1(&fields),
        Machine::Mic2 => word_with2(&fields),
    }
}

fn fields(machine: Machine, bits: u64) -> Fields
    ensures { result ≡ fields_of machine bits }
{
    match machine {
        Machine::Mic1 => fields1(bits),
        Machine::Mic2 => fields2(bits),
    }
}

fn is_short(machine: Machine, bits: u64) -> bool
    ensures { result ≡ nat_lt bits (word_end machine) }
{
    match machine {
        Machine::Mic1 => bits < 1 << 36,
        Machine::Mic2 => bits < 1 << 39,
    }
}

#[tactic(auto, unfolding(crate::specs::Coding::statement_of, crate::specs::Words::is_canonical))]
fn decoded(machine: Machine, bits: u64) -> Option<Placed>
    ensures { result ≡ decoded_as machine bits }
{
    let fields = fields(machine, bits);
    if is_short(machine, bits) && fields.canonical(machine) {
        Some(fields.placed(machine))
    } else {
        None
    }
}

/// The statement of a canonical word of Mic-1; none where the bits are no canonical word.
pub fn decode1(bits: u64) -> Option<Placed>
    ensures known { IfSome result (λ p. IsTrue (is_valid Mic1 p) × (microword_of Mic1 p ≡ bits)) }
    ensures back { (p : Placed) → IsTrue (is_valid Mic1 p) → microword_of Mic1 p ≡ bits → result ≡ Some p }
    ensures none { IfNone result (¬ IsCanonical Mic1 bits) }
{
    decoded(Machine::Mic1, bits)
}

/// The statement of a canonical word of Mic-2; none where the bits are no canonical word.
pub fn decode2(bits: u64) -> Option<Placed>
    ensures known { IfSome result (λ p. IsTrue (is_valid Mic2 p) × (microword_of Mic2 p ≡ bits)) }
    ensures back { (p : Placed) → IsTrue (is_valid Mic2 p) → microword_of Mic2 p ≡ bits → result ≡ Some p }
    ensures none { IfNone result (¬ IsCanonical Mic2 bits) }
{
    decoded(Machine::Mic2, bits)
}

/// The word of a statement on Mic-1.
pub fn encode1(placed: &Placed) -> Word1
    requires { IsTrue (is_valid Mic1 placed.now) }
    ensures { result ≡ microword_of Mic1 placed.now }
{
    Word1 {
        bits: bits_of(Machine::Mic1, placed),
    }
}

/// The word of a statement on Mic-2.
pub fn encode2(placed: &Placed) -> Word2
    requires { IsTrue (is_valid Mic2 placed.now) }
    ensures { result ≡ microword_of Mic2 placed.now }
{
    Word2 {
        bits: bits_of(Machine::Mic2, placed),
    }
}

impl Word1 {
    pub fn bits(&self) -> u64
        ensures value { result ≡ self.now }
        ensures canonical { IsTrue (is_canonical Mic1 result) }
    {
        self.bits
    }
}

impl Word2 {
    pub fn bits(&self) -> u64
        ensures value { result ≡ self.now }
        ensures canonical { IsTrue (is_canonical Mic2 result) }
    {
        self.bits
    }
}
