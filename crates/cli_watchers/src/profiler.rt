//! Counts instructions at their boundaries.

ghost use Rattle.std.specs.Prelude.{◌≡◌, None, replicate, slice_set};
ghost use Rattle.cli_watchers.specs.Profile.{Profile, boot_of, completed, more, no_tally, profile_after, row_at, tally_at};

use crate::rows::{OTHER, ROWS};
use mic_base::{Sink, SinkFailed};
use mic_clock::{Boundary, Counts, End};
use mic_watched::{Cycle, Watcher};

/// How often the instructions of a row were completed, and in how many cycles.
#[derive(Clone, Copy, Debug, PartialEq, Eq)]
pub struct RowCount {
    pub count: u64,
    pub cycles: u64,
}

impl RowCount {
    const NONE: RowCount = RowCount {
        count: 0,
        cycles: 0,
    };

    fn more(self, cycles: u64) -> RowCount
        ensures { result ≡ more cycles self }
    {
        RowCount {
            count: self.count.saturating_add(1),
            cycles: self.cycles.saturating_add(cycles),
        }
    }
}

/// The tallies of a run, by the rows of the addresses of its image.
#[derive(Drop)]
pub struct Profiler<'a> {
    pub rows: &'a [u8],
    pub boot: u64,
    pub last: Option<Boundary>,
    pub tallies: [RowCount; ROWS],
}

/// The row of an address.
fn row_at(rows: &[u8], at: u32) -> u8
    ensures { result ≡ row_at rows.now at }
{
    match rows.get(at as usize) {
        Some(row) => *row,
        None => OTHER,
    }
}

/// One more instruction of this row, in this many cycles.
fn add(tallies: &mut [RowCount], row: u8, cycles: u64)
    ensures { tallies.new ≡ slice_set tallies.old row (more cycles (tally_at tallies.old row)) }
{
    let row = usize::from(row);
    if row < tallies.len() {
        tallies[row] = tallies[row].more(cycles);
    }
}

/// The instruction at the last boundary, if there was one, is completed.
pub(crate) fn complete(rows: &[u8], tallies: &mut [RowCount], last: Option<Boundary>, cycles: u64)
    ensures { tallies.new ≡ completed rows.now tallies.old last cycles }
{
    if let Some(boundary) = last {
        add(
            tallies,
            row_at(rows, boundary.at),
            cycles.saturating_sub(boundary.cycles),
        );
    }
}

impl<'a> Profiler<'a> {
    /// A profiler that has counted nothing.
    pub fn new(rows: &'a [u8]) -> Profiler<'a>
        ensures rows { result.rows.now ≡ rows.now }
        ensures boot { result.boot ≡ 0 }
        ensures last { result.last ≡ None }
        ensures tallies { result.tallies ≡ replicate 27 no_tally }
    {
        Profiler {
            rows,
            boot: 0,
            last: None,
            tallies: [RowCount::NONE; ROWS],
        }
    }

    /// The cycles up to the first boundary, or all where none was reached.
    pub fn boot(&self, counts: &Counts) -> u64
        ensures { result ≡ boot_of self.now.last self.now.boot counts.now.cycles }
    {
        match self.last {
            Some(_) => self.boot,
            None => counts.cycles,
        }
    }
}

impl<'a> Watcher for Profiler<'a> {
    ghost use Rattle.cli_watchers.specs.Profile.{Profile, Silent, profile_after, profile_in};

    ghost Kept = { Profile };

    ghost kept = { λ p. profile_in p };

    ghost keeps = { profile_after };

    ghost Prints = { Silent };

    fn wants(&self, boundary: bool) -> bool {
        boundary
    }

    fn see<E: Sink>(&mut self, cycle: &Cycle, _err: &mut E) -> Result<(), SinkFailed> {
        if cycle.boundary.is_some() {
            self.boot = self.boot(&cycle.counts);
            complete(self.rows, &mut self.tallies, self.last, cycle.counts.cycles);
            self.last = cycle.counts.boundary;
        }
        Ok(())
    }
}
