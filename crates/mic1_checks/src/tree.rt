//! All answers to what two paths ask.
ghost use Rattle.std.specs.Prelude.{◌≡◌, ◌++◌, Ok, None, IfOk, [], ◌∷◌};
ghost use Rattle.std.specs.List.{Contains};
ghost use Rattle.mic1_checks.specs.Common.{Mic1, Grows, Holds};
ghost use Rattle.mic1_checks.specs.Carried.{CarriesFrom};

use crate::finding::{Difference, Unlike};
use crate::leaf::{Counts, Tried, attempt};
use crate::start::Start;
use crate::stores::Stores;
use mic1_cycles::Answer;
use mic1_passes::Work;
use std::alloc::{AllocError, Global};

/// What it costs that a leaf is compared with another one in the end, in the unit of the budget.
const LEAF: u64 = 4;

fn with(answers: &[Answer], more: Answer, alloc: Global) -> Result<Vec<Answer>, AllocError>
    ensures { IfOk result (λ all. all.items ≡ answers.now ++ more ∷ []) }
{
    let mut all = Vec::from_slice(alloc, answers)?;
    all.push(more)?;
    Ok(all)
}

fn not_shown(
    answers: &[Answer],
    difference: Difference,
    alloc: Global,
) -> Result<Option<Unlike>, AllocError>
    ensures { result ≡ Ok None → ⊥ }
{
    let answers = Vec::from_slice(alloc, answers)?;
    Ok(Some(Unlike {
        answers,
        difference,
    }))
}

/// Whether what the first store takes carries over to the second, under all answers that go on from these, with at most
/// `depth` more; if not, the first path that is not shown. The counts of each leaf where both come to a boundary are added
/// to `leaves`.
pub fn explore(
    start: &Start,
    stores: &Stores<'_>,
    answers: &[Answer],
    depth: u32,
    leaves: &mut Vec<Counts>,
    work: &mut Work,
    alloc: Global,
) -> Result<Option<Unlike>, AllocError>
    requires machine { stores.now.store.now.machine ≡ Mic1 }
    requires other { stores.now.other.now.machine ≡ Mic1 }
    ensures carries { result ≡ Ok None → Holds work.new.nodes
        (CarriesFrom start.now answers.now stores.now.store.now.words stores.now.other.now.words stores.now.entry stores.now.other_entry leaves.new.items) }
    ensures grows { Grows work.old.nodes work.new.nodes }
    ensures kept { (c : Counts) → Contains leaves.old.items c → Contains leaves.new.items c }
{
    match attempt(start, stores, answers, work, alloc)? {
        Tried::Alike(counts) => {
            let cost = LEAF.saturating_mul(leaves.len() as u64);
            work.left = work.left.saturating_sub(cost);
            leaves.push(counts)?;
            Ok(None)
        }
        Tried::Stopped => Ok(None),
        Tried::Unlike(difference) => not_shown(answers, difference, alloc),
        Tried::Asks(answer) => {
            if depth == 0 {
                return not_shown(answers, Difference::TooMuch, alloc);
            }
            let yes = with(answers, Answer { is: true, ..answer }, alloc)?;
            match explore(start, stores, &yes, depth - 1, leaves, work, alloc)? {
                Some(unlike) => return Ok(Some(unlike)),
                None => {}
            }
            let no = with(
                answers,
                Answer {
                    is: false,
                    ..answer
                },
                alloc,
            )?;
            explore(start, stores, &no, depth - 1, leaves, work, alloc)
        }
    }
}
