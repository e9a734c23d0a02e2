//! A whole control store beside another one.
ghost use Rattle.std.specs.Prelude.{◌≡◌, Ok, None, IsTrue};
ghost use Rattle.std.specs.List.{All};
ghost use Rattle.mic_words.specs.declared.machine.Machine.TheVariants.{Mic1};
ghost use Rattle.mic1_checks.specs.Spent.{Agree, CarriesAll, DecideSeconds};

use crate::all::takes_alike;
use crate::boot::{BOOT, boot_alike};
use crate::ends::{Ends, ends_of};
use crate::finding::{Asked, NotShown};
use crate::instruction::all_instructions;
use crate::leaf::Counts;
use crate::search::Search;
use crate::stores::Stores;
use std::alloc::{AllocError, Global};

/// The budget of a whole store, in parts of a table that are looked at (`Work`). The store that ships takes a sixtieth of it;
/// to use it up takes some tenths of a second and a few megabytes, whatever the statements are.
const BUDGET: u64 = 2_000_000_000;

/// What a store spends beside another one: what both spend, leaf by leaf, and its own cycles of HALT and ERR.
#[derive(Drop)]
pub struct Costs {
    pub leaves: Vec<Counts>,
    pub ends: Ends,
}

/// What came of a whole store.
#[derive(Drop)]
pub enum Verdict {
    /// The second store does what the first does, and spends this.
    Shown(Costs),
    NotShown(NotShown),
}

/// Whether two leaves of one row have one second count if they have one first count.
fn agree(a: Counts, b: Counts) -> bool
    ensures { IsTrue result → Agree a b }
{
    a.row != b.row || a.first != b.first || a.second == b.second
}

fn agrees_with_all(a: Counts, leaves: &[Counts]) -> bool
    ensures { IsTrue result → All (λ b. Agree a b) leaves.now }
{
    leaves.iter().all(|b| agree(a, *b))
}

/// Whether the second counts follow from the first ones.
fn decide_seconds(leaves: &[Counts]) -> bool
    ensures { IsTrue result → DecideSeconds leaves.now }
{
    leaves.iter().all(|a| agrees_with_all(*a, leaves))
}

/// What has this row of leaves.
fn asked_in(row: u32, alloc: Global) -> Result<Asked, AllocError> {
    let all = all_instructions(alloc)?;
    for n in &all {
        if n.row == row {
            return Ok(Asked::Instruction(*n));
        }
    }
    Ok(Asked::Boot)
}

/// The row of the first leaf whose second count does not follow from its first one.
fn undecided(leaves: &[Counts]) -> u32 {
    for a in leaves {
        if !agrees_with_all(*a, leaves) {
            return a.row;
        }
    }
    BOOT
}

/// What was found of a whole store, whose cycles of HALT and ERR are these.
fn verdict_on(
    search: Search,
    ends: Result<Ends, Asked>,
    alloc: Global,
) -> Result<Verdict, AllocError>
    ensures none { (costs : Costs) → result ≡ Ok (Verdict.Shown costs) → search.first ≡ None }
    ensures leaves { (costs : Costs) → result ≡ Ok (Verdict.Shown costs) → costs.leaves.items ≡ search.leaves.items }
    ensures decide { (costs : Costs) → result ≡ Ok (Verdict.Shown costs) → DecideSeconds costs.leaves.items }
    ensures ends { (costs : Costs) → result ≡ Ok (Verdict.Shown costs) → ends ≡ Ok costs.ends }
{
    let Search {
        leaves,
        first,
        others,
        too_much,
        ..
    } = search;
    if let Some(first) = first {
        return Ok(Verdict::NotShown(NotShown::Differs {
            first,
            others,
            too_much,
        }));
    }
    match ends {
        Err(asked) => Ok(Verdict::NotShown(NotShown::Costs { asked })),
        Ok(ends) => {
            if decide_seconds(&leaves) {
                return Ok(Verdict::Shown(Costs { leaves, ends }));
            }
            let asked = asked_in(undecided(&leaves), alloc)?;
            Ok(Verdict::NotShown(NotShown::Costs { asked }))
        }
    }
}

/// Whether the second store does what the first does: that it takes of every instruction what the first takes, takes HALT and
/// ERR to their ends, and comes from its reset to the first boundary. The boot comes last, because it runs a NOP. If all of it
/// is shown, and its cycles follow from the first store's, that is what it spends; else it is what is not shown, which
/// promises nothing: a store that does the same may not be recognised.
pub fn judge(stores: &Stores<'_>, alloc: Global) -> Result<Verdict, AllocError>
    requires machine { stores.now.store.now.machine ≡ Mic1 }
    requires other { stores.now.other.now.machine ≡ Mic1 }
    ensures { (costs : Costs) → result ≡ Ok (Verdict.Shown costs) → CarriesAll
        stores.now.store.now.words stores.now.other.now.words stores.now.entry stores.now.other_entry costs }
{
    let mut search = Search::new(BUDGET, alloc);
    takes_alike(stores, &mut search, alloc)?;
    let ends = ends_of(stores, &mut search, alloc)?;
    let boot = boot_alike(stores, &mut search.leaves, &mut search.left, alloc)?;
    search.note(boot)?;
    verdict_on(search, ends, alloc)
}
