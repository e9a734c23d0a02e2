//! The statements of a path by their labels.

use crate::brief::Brief;
use mal_parser::MalProgram;
use store_placement::Placement;

/// The most statements that are named, and how many at the front and at the end where there are more.
const MOST: usize = 12;

const FRONT: usize = 7;

const END: usize = 4;

/// The most bytes of all of them.
const BYTES: u16 = 95;

/// Appends the label of the statement at an address, or the address where it has none.
fn put_label(text: &mut Brief, program: &MalProgram, placement: &Placement, address: u16) {
    if let Some(s) = placement.statement_at(address) {
        if s < program.len() {
            if let Some(label) = program.statement(s).label {
                text.put(label.text());
                return;
            }
        }
    }
    text.put("0x");
    text.put_hex(u32::from(address));
}

fn put_labels(text: &mut Brief, program: &MalProgram, placement: &Placement, addresses: &[u16]) {
    for (place, address) in addresses.iter().enumerate() {
        if place > 0 {
            text.put(" ");
        }
        put_label(text, program, placement, *address);
    }
}

/// The addresses after the first, which is the entry of every path, where there are others.
fn after_entry(addresses: &[u16]) -> &[u16] {
    if addresses.len() > 1 {
        &addresses[1..]
    } else {
        addresses
    }
}

/// Appends the statements that a path clocked, in parentheses.
pub(crate) fn put_path(
    text: &mut Brief,
    program: &MalProgram,
    placement: &Placement,
    addresses: &[u16],
) {
    let named = after_entry(addresses);
    if named.is_empty() {
        return;
    }
    text.put("  (");
    text.begin_part(BYTES);
    if named.len() > MOST {
        put_labels(text, program, placement, &named[..FRONT]);
        text.put(" .. ");
        put_labels(text, program, placement, &named[named.len() - END..]);
    } else {
        put_labels(text, program, placement, named);
    }
    text.end_part();
    text.put(")");
}
