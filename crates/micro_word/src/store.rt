//! The control store, whose words are decoded once, when they are stored.
ghost use Rattle.std.specs.Prelude.{◌≡◌, ◌<◌, IsTrue, replicate, slice_index, slice_set};
ghost use Rattle.micro_word.specs.Coding.{microword_of};
ghost use Rattle.micro_word.specs.Words.{is_valid, is_canonical};
ghost use Rattle.micro_word.specs.Layout.{fields_of};
ghost use Rattle.micro_word.specs.Lines.{AreLines};

use crate::layout::{fields1, fields2};
use crate::lines::Lines;
use crate::statement::Placed;
use crate::word::{encode1, encode2};
use mic_words::Machine;
use std::marker::Model;

/// A control store: 512 words, each canonical for its machine.
#[derive(Drop)]
pub struct Store {
    machine: Machine,
    words: [u64; 512],
    /// The control lines of each word.
    lines: [Lines; 512],
}

impl Model for Store {
    ghost use Rattle.micro_word.specs.ControlStore.{ControlStore, IsKept};

    ghost Value = { ControlStore };

    ghost view = { λ s. record { machine = s.machine; words = s.words } };

    ghost invariant = { λ s. IsKept s.machine s.words s.lines };
}

fn word(machine: Machine, placed: &Placed) -> u64
    requires { IsTrue (is_valid machine placed.now) }
    ensures value { result ≡ microword_of machine placed.now }
    ensures canonical { IsTrue (is_canonical machine result) }
{
    match machine {
        Machine::Mic1 => encode1(placed).bits(),
        Machine::Mic2 => encode2(placed).bits(),
    }
}

fn lines_of(machine: Machine, word: u64) -> Lines
    ensures { AreLines machine (fields_of machine word) result }
{
    match machine {
        Machine::Mic1 => Lines::of_fields(Machine::Mic1, &fields1(word)),
        Machine::Mic2 => Lines::of_fields(Machine::Mic2, &fields2(word)),
    }
}

impl Store {
    ghost use Rattle.micro_word.specs.ControlStore.{IsStore};

    /// The statement's word at every address.
    pub fn filled(machine: Machine, placed: &Placed) -> Store
        requires { IsTrue (is_valid machine placed.now) }
        ensures machine { result.machine ≡ machine }
        ensures words { result.words ≡ replicate 512 (microword_of machine placed.now) }
    {
        let word = word(machine, placed);
        Store {
            machine,
            words: [word; 512],
            lines: [lines_of(machine, word); 512],
        }
    }

    /// Puts the statement's word at an address.
    pub fn set(&mut self, address: u16, placed: &Placed)
        requires address { address < 512 }
        requires valid { IsTrue (is_valid self.old.machine placed.now) }
        ensures machine { self.new.machine ≡ self.old.machine }
        ensures words { self.new.words ≡ slice_set self.old.words address (microword_of self.old.machine placed.now) }
    {
        let word = word(self.machine, placed);
        self.words[address as usize] = word;
        self.lines[address as usize] = lines_of(self.machine, word);
    }

    pub fn machine(&self) -> Machine
        ensures value { result ≡ self.now.machine }
        ensures store { IsStore self.now }
    {
        self.machine
    }

    pub fn word(&self, address: u16) -> u64
        requires { address < 512 }
        ensures value { result ≡ slice_index self.now.words address }
        ensures canonical { IsTrue (is_canonical self.now.machine result) }
        ensures store { IsStore self.now }
    {
        self.words[address as usize]
    }

    /// The control lines of the word there.
    pub fn lines(&self, address: u16) -> Lines
        requires { address < 512 }
        ensures { AreLines self.now.machine (fields_of self.now.machine (slice_index self.now.words address)) result }
    {
        self.lines[address as usize]
    }

    /// The control lines of the word there, by reference.
    #[inline]
    pub fn lines_at(&self, address: u16) -> &Lines
        requires { address < 512 }
        ensures { AreLines self.now.machine (fields_of self.now.machine (slice_index self.now.words address)) result.now }
    {
        &self.lines[address as usize]
    }
}
