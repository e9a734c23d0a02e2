//! The values of the options, and what holds where one is not given; the numbers among the plain words.

ghost use Rattle.std.specs.Prelude.{◌≡◌, ◌≤◌, [], IfSome, true, unwrap_or};
ghost use Rattle.std.specs.Option.{option_map};
ghost use Rattle.mic_base.specs.Prelude.{number_of};
ghost use Rattle.cli_words.specs.Words.{HasMap, is_true, map_in, number_in, number_within, processor_in};
ghost use Rattle.cli_words.specs.declared.request.Processor.TheVariants.{Mic3};

use crate::request::Processor;
use console_port::MemoryMap;
use mic_base::Number;
use mic_words::Machine;

/// The bound on cycles where none is given.
pub const DEFAULT_BOUND: u64 = 10_000_000;

/// The greatest bound that can be given.
pub const MOST_CYCLES: u64 = 1_000_000_000;

/// The greatest seed of a generated program.
pub const MOST_SEED: u64 = 4_294_967_295;

/// The greatest number of blocks of a generated program.
pub const MOST_BLOCKS: u64 = 9_000;

/// The most lines of a cache.
pub const MOST_LINES: u64 = 4_096;

/// The cycles that a session can go back where no depth is given.
pub const DEFAULT_DEPTH: u64 = 4_096;

/// The greatest depth that can be given.
pub const MOST_DEPTH: u64 = 65_536;

/// The text of a plain word; empty where the command has no such word.
pub(crate) fn word_in<'a>(value: Option<&'a str>) -> &'a str
    ensures { result.now ≡ unwrap_or (option_map (λ value. value.now) value.entry) [] }
{
    match value {
        Some(word) => word,
        None => "",
    }
}

/// What is named to clock a program; Mic-1 where nothing is. Mic-3 is named only where it is taken.
pub(crate) fn processor_in(takes_mic3: bool, value: Option<&str>) -> Option<Processor>
    ensures value { result ≡ processor_in takes_mic3 (option_map (λ value. value.now) value.entry) }
    ensures taken { IfSome result (λ processor. processor ≡ Mic3 → takes_mic3 ≡ true) }
{
    match value {
        None => Some(Processor::Datapath(Machine::Mic1)),
        Some("mic1") => Some(Processor::Datapath(Machine::Mic1)),
        Some("mic2") => Some(Processor::Datapath(Machine::Mic2)),
        Some("mic3") if takes_mic3 => Some(Processor::Mic3),
        Some(_) => None,
    }
}

fn number_within(word: &str, least: u64, greatest: u64) -> Option<u64>
    ensures value { result ≡ number_within least greatest (number_of word.now) }
    ensures within { IfSome result (λ n. (least ≤ n) × (n ≤ greatest)) }
{
    match Number::read(word.as_bytes()) {
        Ok(number) if number >= 0 && least <= number as u64 && number as u64 <= greatest => {
            Some(number as u64)
        }
        _ => None,
    }
}

/// The number that is given, from the least to the greatest; the default where none is.
pub(crate) fn number_in(value: Option<&str>, default: u64, least: u64, greatest: u64) -> Option<u64>
    requires { (least ≤ default) × (default ≤ greatest) }
    ensures value { result ≡ number_in default least greatest (option_map (λ value. value.now) value.entry) }
    ensures within { IfSome result (λ n. (least ≤ n) × (n ≤ greatest)) }
{
    match value {
        None => Some(default),
        Some(word) => number_within(word, least, greatest),
    }
}

/// The map that is named; the standard map where none is.
pub(crate) fn map_in(value: Option<&str>) -> Option<MemoryMap>
    ensures value { result ≡ map_in (option_map (λ value. value.now) value.entry) }
    ensures is { IfSome result HasMap }
{
    match value {
        None => Some(MemoryMap::STANDARD),
        Some("standard") => Some(MemoryMap::STANDARD),
        Some("large") => Some(MemoryMap::LARGE),
        Some(_) => None,
    }
}

/// Whether a flag is given.
pub(crate) fn is_true(value: Option<&str>) -> bool
    ensures { result ≡ is_true (option_map (λ value. value.now) value.entry) }
{
    match value {
        Some("true") => true,
        _ => false,
    }
}
