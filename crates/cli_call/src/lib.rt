//! One call of the program `mic`: its words, its files and its streams.
//! It assembles, verifies, lists and runs programs of IJVM, compiles those of Tiny, and places and prints microprograms.
#![tactic(auto)]

mod answers;
mod laws;
mod print;
mod run;
mod tiny;
mod top_call;
mod usage;

pub use answers::{each_answer_has_its_cause, mic_main};
pub use laws::{
    cache_counts_the_run, machines_only_give, run_agrees_on_both_machines,
    run_agrees_with_reference, tiny_does_what_is_meant,
};
pub use usage::misused;
