//! The store file, written and read.
ghost use Rattle.std.specs.Prelude.{◌≡◌, ◌+◌, ◌≤◌, ◌<◌, ◌⊎◌, false, length, IfOk, IfErr, MatchOption, MatchResult};
ghost use Rattle.micro_word.specs.Prelude.{is_canonical};
ghost use Rattle.store_placement.specs.declared.store_error.StoreError.{StoreError};
ghost use Rattle.store_placement.specs.First.{IsFirst};
ghost use Rattle.store_placement.specs.StoreFile.{magic, word_bytes, store_file, machine_of, number_at, word_at, is_bad, DecodesCanonical, IfFileOf, IsErrUnlessShort, IsReadFrom, IsShortage, RefusesFile};

use crate::filling::goto_end;
use crate::store_error::StoreError;
use micro_word::{Machine, Placed, Store, decode1, decode2, word_law};
use std::alloc::{AllocError, Global};

const LENGTH: usize = 2564;

fn magic(machine: Machine) -> &'static [u8]
    ensures { result.now ≡ magic machine }
{
    match machine {
        Machine::Mic1 => b"MIC1",
        Machine::Mic2 => b"MIC2",
    }
}

fn word_bytes(word: u64) -> [u8; 5]
    ensures { result ≡ word_bytes word }
{
    [
        (word / 0x1_0000_0000 % 256) as u8,
        (word / 0x100_0000 % 256) as u8,
        (word / 0x1_0000 % 256) as u8,
        (word / 0x100 % 256) as u8,
        (word % 256) as u8,
    ]
}

/// The file of a control store: 2,564 bytes.
#[tactic(auto, unfolding(crate::specs::StoreFile::store_file))]
pub fn store_bytes(alloc: Global, store: &Store) -> Result<Vec<u8>, AllocError>
    ensures { IfOk result (λ v. v.items ≡ store_file store.now) }
{
    let mut bytes = Vec::with_capacity(alloc, LENGTH)?;
    bytes.extend_from_slice(magic(store.machine()))?;
    for address in 0..512 {
        bytes.extend_from_slice(&word_bytes(store.word(address)))?;
    }
    Ok(bytes)
}

/// The machine whose magic a file begins with.
#[tactic(auto, unfolding(crate::specs::StoreFile::machine_of))]
pub fn machine_of(bytes: &[u8]) -> Option<Machine>
    ensures { result ≡ machine_of bytes.now }
{
    if bytes.starts_with(b"MIC1") {
        Some(Machine::Mic1)
    } else if bytes.starts_with(b"MIC2") {
        Some(Machine::Mic2)
    } else {
        None
    }
}

fn number_at(bytes: &[u8], k: usize) -> u64
    requires { k + 5 ≤ length bytes.now }
    ensures { result ≡ number_at bytes.now k }
{
    bytes[k] as u64 * 0x1_0000_0000
        + bytes[k + 1] as u64 * 0x100_0000
        + bytes[k + 2] as u64 * 0x1_0000
        + bytes[k + 3] as u64 * 0x100
        + bytes[k + 4] as u64
}

fn decode(machine: Machine, word: u64) -> Option<Placed>
    ensures { MatchOption result (is_canonical machine word ≡ false) (DecodesCanonical machine word) }
{
    word_law(machine);
    match machine {
        Machine::Mic1 => decode1(word),
        Machine::Mic2 => decode2(word),
    }
}

#[tactic(auto, unfolding(crate::specs::StoreFile::word_at))]
fn word_at(bytes: &[u8], address: u16) -> u64
    requires length { length bytes.now ≡ 2564 }
    requires inside { address < 512 }
    ensures { result ≡ word_at bytes.now address }
{
    number_at(bytes, 4 + 5 * address as usize)
}

/// The control store of these words, or the lowest address whose word is not canonical.
fn read_words(machine: Machine, bytes: &[u8]) -> Result<Store, u16>
    requires { length bytes.now ≡ 2564 }
    ensures { MatchResult result (IsReadFrom bytes.now machine 512) (IsFirst (is_bad machine bytes.now) 512) }
{
    let mut store = Store::filled(machine, &goto_end());
    for address in 0..512 {
        match decode(machine, word_at(bytes, address)) {
            Some(placed) => store.set(address, &placed),
            None => return Err(address),
        }
    }
    Ok(store)
}

/// The control store of a file. Each refusal comes exactly where it is the first one, except that memory may run out.
pub fn read_store(alloc: Global, bytes: &[u8]) -> Result<Box<Store>, StoreError>
    ensures ok { IfOk result (λ store. store_file store.value ≡ bytes.now) }
    ensures back { IfFileOf bytes.now (λ s. MatchResult result (λ store. store.value ≡ s) IsShortage) }
    ensures refused { (e : StoreError) → RefusesFile bytes.now e → IsErrUnlessShort result e }
    ensures cause { IfErr result (λ e. IsShortage e ⊎ RefusesFile bytes.now e) }
{
    let Some(machine) = machine_of(bytes) else {
        return Err(StoreError::BadMagic);
    };
    if bytes.len() != LENGTH {
        return Err(StoreError::BadLength(bytes.len()));
    }
    let store = match read_words(machine, bytes) {
        Ok(store) => store,
        Err(address) => return Err(StoreError::BadWord(address)),
    };
    match Box::new(alloc, store) {
        Ok(boxed) => Ok(boxed),
        Err(_) => Err(StoreError::OutOfMemory),
    }
}
