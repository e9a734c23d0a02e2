//! HALT and ERR in a control store.
ghost use Rattle.std.specs.Prelude.{◌≡◌, ℕ, Ok, None, IfOk, IfSome, length};
ghost use Rattle.mic1_checks.specs.Common.{Mic1, AreOrdered};
ghost use Rattle.mic1_checks.specs.declared.shape.Shape.{Shape};
ghost use Rattle.mic1_checks.specs.Ends.{EndsAfter, HasEndedAfter, TakesEnds};
ghost use Rattle.mic1_checks.specs.Start.{HasRegisters};

use crate::check::{finding_of, work_of};
use crate::difference::ends_unlike;
use crate::facts::known_of;
use crate::finding::{Asked, Difference, Finding, Unlike};
use crate::instruction::Instruction;
use crate::leaf::is_no_end;
use crate::search::Search;
use crate::shape::{SETTLED, Shape, WITH_BOTH, WITH_BYTE, WITH_WORD, shaped};
use crate::start::{begin, path_from};
use crate::stores::Stores;
use mic1_cycles::Path;
use mic1_passes::{Followed, Work, follow};
use micro_terms::environments_exist;
use std::alloc::{AllocError, Global};

/// The cycles of HALT and of ERR, each without the first cycle.
#[derive(Clone, Copy, Debug, PartialEq, Eq)]
pub struct Ends {
    pub halt: u32,
    pub err: u32,
}

/// An instruction that ends the run.
#[derive(Clone, Copy, Debug, PartialEq, Eq)]
struct Ending {
    asked: Asked,
    opcode: u8,
    /// Where it leads.
    address: u16,
}

const HALT: Ending = Ending {
    asked: Asked::Halt,
    opcode: 0xFF,
    address: 0x0FF,
};

const ERR: Ending = Ending {
    asked: Asked::Err,
    opcode: 0xFE,
    address: 0x0FE,
};

/// What came of following it.
#[derive(Drop)]
enum Ended {
    /// It ends the run, after so many cycles and one.
    After(u32),
    Unlike(Finding),
    /// It ends the run, but what is under way decides in how many cycles.
    Varies,
}

/// What a path has done to the world first, if it has done something.
fn touched(path: &Path) -> Option<Difference>
    ensures taken { result ≡ None → path.now.taken ≡ 0 }
    ensures writes { result ≡ None → length path.now.writes.items ≡ 0 }
    ensures given { result ≡ None → length path.now.given.items ≡ 0 }
{
    if path.taken != 0 {
        return Some(Difference::Taken {
            is: path.taken,
            wanted: 0,
        });
    }
    if !path.writes.is_empty() {
        return Some(Difference::Write {
            place: 0,
            is: path.writes.first().copied(),
            wanted: None,
        });
    }
    if !path.given.is_empty() {
        return Some(Difference::Given {
            place: 0,
            is: path.given.first().copied(),
            wanted: None,
        });
    }
    None
}

/// The cycles in which a path has come to the end of the run at this address, with the world as it was; or how it has not.
fn cycles_to(address: u16, entry: u16, end: Followed, path: &Path) -> Result<u32, Difference>
    ensures { IfOk result (λ n. HasEndedAfter end n address entry path.now) }
{
    if address == entry || !is_no_end(entry) {
        return Err(Difference::EntryIsEnd);
    }
    let Followed::End(n) = end else {
        return Err(ends_unlike(end, Followed::End(0)));
    };
    if n >= 1023 {
        return Err(Difference::TooMuch);
    }
    if path.symbols.mpc != address {
        return Err(Difference::Address {
            is: path.symbols.mpc,
            wanted: address,
        });
    }
    match touched(path) {
        Some(difference) => Err(difference),
        None => Ok(n),
    }
}

/// What came of a path that has ended so. It has answered nothing.
fn outcome(
    asked: Asked,
    shape: Shape,
    cycles: Result<u32, Difference>,
    work: Work,
    alloc: Global,
) -> Ended
    ensures cycles { (n : ℕ) → result ≡ Ended.After n → cycles ≡ Ok n }
    ensures ordered { (n : ℕ) → result ≡ Ended.After n → AreOrdered work.nodes.nodes.items }
    ensures registers { (n : ℕ) → result ≡ Ended.After n → HasRegisters work.nodes.nodes.items }
{
    match cycles {
        Err(difference) => {
            let unlike = Unlike {
                answers: Vec::new(alloc),
                difference,
            };
            Ended::Unlike(Finding::new(asked, shape, unlike, work))
        }
        Ok(n) => match finding_of(asked, shape, None, work, alloc) {
            Some(finding) => Ended::Unlike(finding),
            None => Ended::After(n),
        },
    }
}

/// Follows such an instruction from a boundary where a machine of this shape stands.
fn end_of(
    ending: Ending,
    shape: Shape,
    stores: &Stores<'_>,
    left: &mut u64,
    alloc: Global,
) -> Result<Ended, AllocError>
    requires machine { stores.now.other.now.machine ≡ Mic1 }
    ensures { (n : ℕ) → result ≡ Ok (Ended.After n) →
        EndsAfter ending.opcode ending.address shape stores.now.other.now.words stores.now.other_entry n }
{
    environments_exist();
    let n = Instruction {
        row: 25,
        opcode: ending.opcode,
        second: None,
    };
    let mut work = work_of(*left, alloc)?;
    let s = begin(ending.opcode, &mut work.nodes, alloc)?;
    let t = shaped(&s, shape);
    let known = known_of(n, &s, &mut work.nodes, alloc)?;
    let answers = Vec::new(alloc);
    let entry = stores.other_entry;
    let mut path = path_from(&t, entry, &answers, alloc)?;
    let end = follow(&mut path, stores.other, entry, &known, &mut work, alloc)?;
    *left = work.left;
    let cycles = cycles_to(ending.address, entry, end, &path);
    Ok(outcome(ending.asked, shape, cycles, work, alloc))
}

/// What came of two shapes.
fn both(a: Ended, b: Ended) -> Ended
    ensures { (n : ℕ) → result ≡ Ended.After n → (a ≡ Ended.After n) × (b ≡ Ended.After n) }
{
    match a {
        Ended::Unlike(finding) => Ended::Unlike(finding),
        Ended::After(m) => match b {
            Ended::Unlike(finding) => Ended::Unlike(finding),
            Ended::After(n) => {
                if m == n {
                    Ended::After(n)
                } else {
                    Ended::Varies
                }
            }
            Ended::Varies => Ended::Varies,
        },
        Ended::Varies => match b {
            Ended::Unlike(finding) => Ended::Unlike(finding),
            _ => Ended::Varies,
        },
    }
}

/// The same from a boundary where a machine of any shape stands.
fn end_in_each_shape(
    ending: Ending,
    stores: &Stores<'_>,
    left: &mut u64,
    alloc: Global,
) -> Result<Ended, AllocError>
    requires machine { stores.now.other.now.machine ≡ Mic1 }
    ensures { (n : ℕ) → result ≡ Ok (Ended.After n) → (shape : Shape) →
        EndsAfter ending.opcode ending.address shape stores.now.other.now.words stores.now.other_entry n }
{
    let settled = end_of(ending, SETTLED, stores, left, alloc)?;
    let with_word = end_of(ending, WITH_WORD, stores, left, alloc)?;
    let with_byte = end_of(ending, WITH_BYTE, stores, left, alloc)?;
    let with_both = end_of(ending, WITH_BOTH, stores, left, alloc)?;
    Ok(both(both(settled, with_word), both(with_byte, with_both)))
}

/// Asks for such an instruction, and notes what is not shown: its cycles without the first one, if it ends the run in the same
/// cycles from every boundary.
fn ask_end(
    ending: Ending,
    stores: &Stores<'_>,
    search: &mut Search,
    alloc: Global,
) -> Result<Option<u32>, AllocError>
    requires machine { stores.now.other.now.machine ≡ Mic1 }
    ensures ends { IfOk result (λ found. IfSome found (λ n. (shape : Shape) →
        EndsAfter ending.opcode ending.address shape stores.now.other.now.words stores.now.other_entry n)) }
    ensures leaves { search.new.leaves.items ≡ search.old.leaves.items }
    ensures first { search.new.first ≡ None → search.old.first ≡ None }
{
    match end_in_each_shape(ending, stores, &mut search.left, alloc)? {
        Ended::After(n) => Ok(Some(n)),
        Ended::Unlike(finding) => {
            search.note(Some(finding))?;
            Ok(None)
        }
        Ended::Varies => Ok(None),
    }
}

/// Asks for HALT and ERR, and notes what is not shown: the cycles of both, if it is shown that the second store takes them
/// from each boundary to their ends, whatever is under way there; else one of the two that it is not shown of.
pub fn ends_of(
    stores: &Stores<'_>,
    search: &mut Search,
    alloc: Global,
) -> Result<Result<Ends, Asked>, AllocError>
    requires machine { stores.now.other.now.machine ≡ Mic1 }
    ensures ends { IfOk result (λ found. IfOk found (λ ends. TakesEnds stores.now.other.now.words stores.now.other_entry ends)) }
    ensures leaves { search.new.leaves.items ≡ search.old.leaves.items }
    ensures first { search.new.first ≡ None → search.old.first ≡ None }
{
    let erred = ask_end(ERR, stores, search, alloc)?;
    let halted = ask_end(HALT, stores, search, alloc)?;
    let Some(err) = erred else {
        return Ok(Err(Asked::Err));
    };
    let Some(halt) = halted else {
        return Ok(Err(Asked::Halt));
    };
    Ok(Ok(Ends { halt, err }))
}
