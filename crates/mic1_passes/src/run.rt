//! A path, followed from a boundary.
ghost use Rattle.std.specs.Prelude.{◌≡◌, ◌+◌, ℕ, Ok, Some};
ghost use Rattle.mic_words.specs.declared.machine.Machine.TheVariants.{Mic1};
ghost use Rattle.mic1_datapath.specs.Mic1.{mic1_meaning};
ghost use Rattle.ijvm_simulation.specs.Passes.{pass};
ghost use Rattle.micro_terms.specs.Meaning.{Grows, Holds};
ghost use Rattle.mic1_cycles.specs.Known.{Knows};
ghost use Rattle.mic1_cycles.specs.Paths.{IsPath};
ghost use Rattle.mic1_passes.specs.Moments.{StopsAt, moment};

use crate::work::{Work, cost_of};
use mic1_cycles::{Answer, Known, Path, Stepped, Stop};
use mic1_datapath::step_law;
use micro_word::{Store, decode1};
use std::alloc::{AllocError, Global};

/// The most cycles from one boundary to the next that are followed.
const MOST_CYCLES: u32 = 1024;

/// Where a path has come. Each count is of the cycles after the first one.
#[derive(Clone, Copy, Debug, PartialEq, Eq)]
pub enum Followed {
    /// At a boundary.
    Boundary(u32),
    /// Before a write that meets the stack's end.
    Limit(u32),
    /// Before an access at an address where the map has nothing.
    OutOfMap(u32),
    /// Where MPC is 0x0FE or 0x0FF, an end of the run.
    End(u32),
    /// Before a question that it has not answered.
    Asks(Answer),
    /// At a word that spells no statement.
    NoStatement,
    /// Where it is not known how to go on: before a dispatch on a byte that is not known, or refused in the first cycle.
    Unknown,
    /// After too many cycles, or where the budget is used up.
    TooMuch,
}

/// Where a path has come that is refused after so many cycles.
fn refused(cycles: u32, why: Stop) -> Followed
    ensures limit { (n : ℕ) → result ≡ Followed.Limit n → (cycles ≡ n + 1) × (why ≡ Stop.Limit) }
    ensures out { (n : ℕ) → result ≡ Followed.OutOfMap n → (cycles ≡ n + 1) × (why ≡ Stop.OutOfMap) }
    ensures boundary { (n : ℕ) → result ≡ Followed.Boundary n → ⊥ }
    ensures end { (n : ℕ) → result ≡ Followed.End n → ⊥ }
{
    if cycles == 0 {
        return Followed::Unknown;
    }
    match why {
        Stop::Limit => Followed::Limit(cycles - 1),
        Stop::OutOfMap => Followed::OutOfMap(cycles - 1),
    }
}

/// Follows a path from the boundary at `entry` to the next one, and notes the addresses that it clocks. An error leaves a
/// path of which nothing is said.
pub fn follow(
    path: &mut Path,
    store: &Store,
    entry: u16,
    known: &Known,
    work: &mut Work,
    alloc: Global,
) -> Result<Followed, AllocError>
    requires machine { store.now.machine ≡ Mic1 }
    ensures boundary { (n stalls : ℕ) → result ≡ Ok (Followed.Boundary n) → Holds work.new.nodes (λ e. Knows e known.now → IsPath e path.old →
        IsPath e path.new × (pass mic1_meaning store.now.words n (moment e stalls entry path.old) ≡ Some (moment e stalls entry path.new))) }
    ensures end { (n stalls : ℕ) → result ≡ Ok (Followed.End n) → Holds work.new.nodes (λ e. Knows e known.now → IsPath e path.old →
        IsPath e path.new × (pass mic1_meaning store.now.words n (moment e stalls entry path.old) ≡ Some (moment e stalls entry path.new))) }
    ensures limit { (n stalls : ℕ) → result ≡ Ok (Followed.Limit n) → Holds work.new.nodes (λ e. Knows e known.now → IsPath e path.old →
        StopsAt e store.now.words stalls entry n Stop.Limit path.old path.new) }
    ensures out { (n stalls : ℕ) → result ≡ Ok (Followed.OutOfMap n) → Holds work.new.nodes (λ e. Knows e known.now → IsPath e path.old →
        StopsAt e store.now.words stalls entry n Stop.OutOfMap path.old path.new) }
    ensures grows { Grows work.old.nodes work.new.nodes }
{
    step_law();
    for n in 0..MOST_CYCLES {
        let mpc = path.symbols.mpc;
        if mpc >= 512 {
            return Ok(Followed::NoStatement);
        }
        work.left = work.left.saturating_sub(cost_of(path, &work.nodes));
        if work.left == 0 {
            return Ok(Followed::TooMuch);
        }
        work.clocked.push(mpc)?;
        let Some(p) = decode1(store.word(mpc)) else {
            return Ok(Followed::NoStatement);
        };
        match path.step(&p, &mut work.nodes, known, alloc)? {
            Stepped::Done => {}
            Stepped::Asks(answer) => return Ok(Followed::Asks(answer)),
            Stepped::Refused(why) => return Ok(refused(n, why)),
            Stepped::Unknown => return Ok(Followed::Unknown),
        }
        let to = path.symbols.mpc;
        if to == entry {
            return Ok(Followed::Boundary(n));
        }
        if to == 0x0FE || to == 0x0FF {
            return Ok(Followed::End(n));
        }
    }
    Ok(Followed::TooMuch)
}
