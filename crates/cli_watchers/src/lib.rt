//! The watchers of a clocked run. One prints each cycle: its word by label and text, its buses, the registers after
//! it, and the instruction whose boundary it reached. Another counts how often each instruction was completed, and in
//! how many cycles. A third repeats the accesses of memory on a cache.
#![tactic(auto)]

pub mod cache;
pub mod laws;
pub mod lines;
pub mod names;
pub mod profiler;
pub mod rows;
pub mod text;
pub mod trace;

pub use cache::{CacheWatcher, WordAccess, accesses_in, cache_line};
pub use laws::{a_cache_counts_the_run, a_profile_counts_the_run};
pub use lines::{bus_line, cycle_line, state_lines};
pub use names::{instruction_text, print_word, reached_at};
pub use profiler::{Profiler, RowCount};
pub use rows::{rows_law, rows_of};
pub use text::put_profile;
pub use trace::Tracer;
