//! The boot of a control store.
ghost use Rattle.std.specs.Prelude.{◌≡◌, [], Ok, None, IfOk};
ghost use Rattle.std.specs.List.{Contains};
ghost use Rattle.mic1_checks.specs.Common.{Mic1, Grows, Holds};
ghost use Rattle.mic1_checks.specs.Boot.{CarriesBoot, IsReset};

use crate::check::{MOST_ANSWERS, finding_of, work_of};
use crate::finding::{Asked, Finding};
use crate::leaf::Counts;
use crate::left::Operands;
use crate::shape::SETTLED;
use crate::start::Start;
use crate::stores::Stores;
use crate::tree::explore;
use mic1_cycles::{Byte, Known, Symbols};
use micro_terms::{Nodes, environments_exist};
use std::alloc::{AllocError, Global};

/// The symbols at a reset: SP is below main's stack, which is as far up as main has locals, and all else is known.
fn reset(nodes: &mut Nodes, alloc: Global) -> Result<Symbols, AllocError>
    ensures value { IfOk result (λ s. Holds nodes.new (λ e. IsReset e s)) }
    ensures grows { Grows nodes.old nodes.new }
{
    let zero = nodes.of_word(0, alloc)?;
    let pc = nodes.of_word(u32::MAX, alloc)?;
    let lv = nodes.of_word(0x8000, alloc)?;
    let cpp = nodes.of_word(0x4000, alloc)?;
    let mbr = Byte {
        plain: zero,
        signed: zero,
    };
    Ok(Symbols {
        mar: zero,
        mdr: zero,
        pc,
        sp: 3,
        lv,
        cpp,
        tos: zero,
        opc: zero,
        h: zero,
        mbr,
        mpc: 0,
        word: None,
        byte: None,
    })
}

/// The row of the boot's leaves.
pub const BOOT: u32 = 24;

fn nothing_known(alloc: Global) -> Known
    ensures ranges { result.ranges.items ≡ [] }
    ensures bytes { result.bytes.items ≡ [] }
    ensures words { result.words.items ≡ [] }
{
    Known {
        ranges: Vec::new(alloc),
        bytes: Vec::new(alloc),
        words: Vec::new(alloc),
    }
}

/// What is not shown of the boot: that the second store comes from its reset to the same boundary as the first. What both
/// spend is added to `leaves`, leaf by leaf, and what following them costs is taken from the budget `left`.
pub fn boot_alike(
    stores: &Stores<'_>,
    leaves: &mut Vec<Counts>,
    left: &mut u64,
    alloc: Global,
) -> Result<Option<Finding>, AllocError>
    requires machine { stores.now.store.now.machine ≡ Mic1 }
    requires other { stores.now.other.now.machine ≡ Mic1 }
    ensures carries { result ≡ Ok None → CarriesBoot
        stores.now.store.now.words stores.now.other.now.words stores.now.entry stores.now.other_entry leaves.new.items }
    ensures kept { (c : Counts) → Contains leaves.old.items c → Contains leaves.new.items c }
{
    environments_exist();
    let mut work = work_of(*left, alloc)?;
    let s = reset(&mut work.nodes, alloc)?;
    let known = nothing_known(alloc);
    let start = Start {
        row: BOOT,
        first: s,
        second: s,
        known,
        operands: Operands::Unknown,
    };
    let answers = Vec::new(alloc);
    let unlike = explore(
        &start,
        stores,
        &answers,
        MOST_ANSWERS,
        leaves,
        &mut work,
        alloc,
    )?;
    *left = work.left;
    Ok(finding_of(Asked::Boot, SETTLED, unlike, work, alloc))
}
