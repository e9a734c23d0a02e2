//! A word of a control store, for each machine a type of its own.

ghost use Rattle.std.specs.Prelude.{◌≡◌, ℕ, IfSome, IfNone};
ghost use Rattle.mic_clock.specs.Common.{Machine, IsCanonical};

use micro_word::{Word1, Word2, decode1, decode2, encode1, encode2};

/// A canonical word of one machine.
pub trait MicroWord: Sized {
    ghost machine: { Machine };

    ghost number: { Self → ℕ };

    /// The word of these bits, or none where no word has them.
    fn from_bits(bits: u64) -> Option<Self>
        ensures word { IfSome result (λ w. number w ≡ bits) }
        ensures canonical { IfSome result (λ w. IsCanonical machine bits) }
        ensures none { IfNone result (¬ IsCanonical machine bits) };

    fn bits(&self) -> u64
        ensures { result ≡ number self.now };
}

impl MicroWord for Word1 {
    ghost use Rattle.mic_words.specs.declared.machine.Machine.TheVariants.{Mic1};

    ghost machine = { Mic1 };

    ghost number = { λ w. w };

    fn from_bits(bits: u64) -> Option<Word1> {
        decode1(bits).map(|placed| encode1(&placed))
    }

    fn bits(&self) -> u64 {
        self.bits()
    }
}

impl MicroWord for Word2 {
    ghost use Rattle.mic_words.specs.declared.machine.Machine.TheVariants.{Mic2};

    ghost machine = { Mic2 };

    ghost number = { λ w. w };

    fn from_bits(bits: u64) -> Option<Word2> {
        decode2(bits).map(|placed| encode2(&placed))
    }

    fn bits(&self) -> u64 {
        self.bits()
    }
}
