//! What is printed of a profile.

ghost use Rattle.std.specs.Prelude.{◌≡◌, ◌≤◌, ℕ, length};
ghost use Rattle.cli_watchers.specs.Common.{HasCause, Puts, PutsAfter};
ghost use Rattle.cli_watchers.specs.Profile.{count_line, profile_in, profile_text, row_line, rows_text, tallies_at};

use crate::profiler::{Profiler, RowCount, complete};
use crate::rows::row_name;
use cli_outside::put_after;
use mic_base::{Line, Sink, SinkFailed};
use mic_clock::{Counts, End};

/// A name and a number.
fn count_line(name: &str, value: u64) -> Line
    requires { length name.now ≤ 64 }
    ensures { result ≡ count_line name.now value }
{
    let mut line = Line::of(name);
    line.number(" ", value);
    line.text("\n");
    line
}

/// The line of a row, which is empty where none of its instructions was completed.
fn row_line(row: usize, tally: &RowCount) -> Line
    ensures { result ≡ row_line row tally.now }
{
    let mut line = Line::new();
    if tally.count > 0 {
        line.text(row_name(row));
        line.number(" ", tally.count);
        line.number(" ", tally.cycles);
        line.text("\n");
    }
    line
}

/// Puts the lines of all rows after what was put, unless that failed.
fn put_rows<E: Sink>(
    before: Result<(), SinkFailed>,
    err: &mut E,
    tallies: &[RowCount],
) -> Result<(), SinkFailed>
    ensures puts { PutsAfter before (E.held err.old) (rows_text 0 tallies.now) result (E.held err.new) }
    ensures cause { (count : ℕ) → HasCause count (E.faults err.old) before → HasCause count (E.faults err.new) result }
{
    let mut said = before;
    for (row, tally) in tallies.iter().enumerate() {
        said = put_after(said, err, row_line(row, tally).bytes());
    }
    said
}

/// The tallies of a run with this end.
fn tallies_at(profiler: &Profiler<'_>, end: End, counts: &Counts) -> [RowCount; 27]
    ensures { result ≡ tallies_at (profile_in profiler.now) end counts.now.cycles }
{
    let mut tallies = profiler.tallies;
    if matches!(end, End::Halt | End::Err) {
        complete(profiler.rows, &mut tallies, profiler.last, counts.cycles);
    }
    tallies
}

/// Puts the profile of a run with this end and these counts.
pub fn put_profile<E: Sink>(
    profiler: &Profiler<'_>,
    end: End,
    counts: &Counts,
    err: &mut E,
) -> Result<(), SinkFailed>
    ensures puts { Puts (E.held err.old) (profile_text (profile_in profiler.now) end counts.now) result (E.held err.new) }
    ensures cause { HasCause (E.faults err.old) (E.faults err.new) result }
{
    let said = err.put(count_line("boot", profiler.boot(counts)).bytes());
    let said = put_rows(said, err, &tallies_at(profiler, end, counts));
    put_after(said, err, count_line("stalls", counts.stalls).bytes())
}
