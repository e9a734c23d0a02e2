//! A difference in words.

use crate::brief::Brief;
use crate::written::put_word;
use mic1_checker::{Difference, Register};
use mic1_cycles::Write;
use mic1_passes::Followed;
use micro_terms::Nodes;
use std::alloc::{AllocError, Global};

/// The most bytes of a word, and of the address and the word of a write.
const LONG: u16 = 85;

const ADDRESS: u16 = 45;

const WRITTEN: u16 = 60;

fn register_name(register: Register) -> &'static str {
    match register {
        Register::Sp => "SP",
        Register::Lv => "LV",
        Register::Cpp => "CPP",
        Register::Tos => "TOS",
        Register::Pc => "PC",
        Register::Opcode => "the opcode",
    }
}

/// Where a path has come.
fn place_name(followed: Followed) -> &'static str {
    match followed {
        Followed::Boundary(_) => "the next boundary",
        Followed::Limit(_) => "the end of the stack",
        Followed::OutOfMap(_) => "an address outside memory",
        Followed::End(_) => "an end of the run",
        Followed::Asks(_) => "a question that is left open",
        _ => "a place that is not followed",
    }
}

/// Appends the place of a write or of an output byte, counted from 1.
fn put_place(text: &mut Brief, what: &str, place: usize) {
    text.put(what);
    text.put_decimal(u32::try_from(place).unwrap_or(u32::MAX).saturating_add(1));
}

fn put_write(
    text: &mut Brief,
    write: &Write,
    nodes: &Nodes,
    alloc: Global,
) -> Result<(), AllocError> {
    text.put("mem[");
    put_word(text, nodes, write.at, ADDRESS, alloc)?;
    text.put("] = ");
    put_word(text, nodes, write.value, WRITTEN, alloc)
}

fn put_write_difference(
    text: &mut Brief,
    place: usize,
    is: Option<Write>,
    wanted: Option<Write>,
    nodes: &Nodes,
    alloc: Global,
) -> Result<(), AllocError> {
    put_place(text, "write ", place);
    match (is, wanted) {
        (Some(is), Some(wanted)) => {
            text.put(" is ");
            put_write(text, &is, nodes, alloc)?;
            text.put(", not ");
            put_write(text, &wanted, nodes, alloc)
        }
        (Some(is), None) => {
            text.put(" is one more: ");
            put_write(text, &is, nodes, alloc)
        }
        (None, Some(wanted)) => {
            text.put(" is missing: ");
            put_write(text, &wanted, nodes, alloc)
        }
        (None, None) => Ok(()),
    }
}

/// Appends that one word stands where another is wanted.
fn put_words(
    text: &mut Brief,
    is: u32,
    wanted: u32,
    nodes: &Nodes,
    alloc: Global,
) -> Result<(), AllocError> {
    text.put(" is ");
    put_word(text, nodes, is, LONG, alloc)?;
    text.put(", not ");
    put_word(text, nodes, wanted, LONG, alloc)
}

fn put_given_difference(
    text: &mut Brief,
    place: usize,
    is: Option<u32>,
    wanted: Option<u32>,
    nodes: &Nodes,
    alloc: Global,
) -> Result<(), AllocError> {
    put_place(text, "output ", place);
    match (is, wanted) {
        (Some(is), Some(wanted)) => put_words(text, is, wanted, nodes, alloc),
        (Some(is), None) => {
            text.put(" is one more: ");
            put_word(text, nodes, is, LONG, alloc)
        }
        (None, Some(wanted)) => {
            text.put(" is missing: ");
            put_word(text, nodes, wanted, LONG, alloc)
        }
        (None, None) => Ok(()),
    }
}

fn put_counts(text: &mut Brief, is: u32, wanted: u32) {
    text.put("input bytes taken are ");
    text.put_decimal(is);
    text.put(", not ");
    text.put_decimal(wanted);
}

fn put_places(text: &mut Brief, is: Followed, wanted: Followed) {
    text.put("comes to ");
    text.put(place_name(is));
    text.put(", not to ");
    text.put(place_name(wanted));
}

fn put_addresses(text: &mut Brief, is: u16, wanted: u16) {
    text.put("ends at 0x");
    text.put_hex(u32::from(is));
    text.put(", not at 0x");
    text.put_hex(u32::from(wanted));
}

/// Appends in which way the second path ends otherwise than the first.
pub(crate) fn put_difference(
    text: &mut Brief,
    difference: &Difference,
    nodes: &Nodes,
    alloc: Global,
) -> Result<(), AllocError> {
    match difference {
        Difference::Register {
            register,
            is,
            wanted,
        } => {
            text.put(register_name(*register));
            put_words(text, *is, *wanted, nodes, alloc)
        }
        Difference::Write { place, is, wanted } => {
            put_write_difference(text, *place, *is, *wanted, nodes, alloc)
        }
        Difference::Taken { is, wanted } => {
            put_counts(text, *is, *wanted);
            Ok(())
        }
        Difference::Given { place, is, wanted } => {
            put_given_difference(text, *place, *is, *wanted, nodes, alloc)
        }
        Difference::End { is, wanted } => {
            put_places(text, *is, *wanted);
            Ok(())
        }
        Difference::Address { is, wanted } => {
            put_addresses(text, *is, *wanted);
            Ok(())
        }
        Difference::EntryIsEnd => {
            text.put("Main1 is at an end of the run");
            Ok(())
        }
        Difference::TooMuch => {
            text.put("more is asked than is followed");
            Ok(())
        }
    }
}
