//! What holds between two commands.

ghost use Rattle.std.specs.Prelude.{ℕ, List};
ghost use Rattle.cli_call.specs.Common.{Machine, MemoryMap, mic1_meaning, mic2_meaning, OnlyGives};
ghost use Rattle.cli_call.specs.Agree.{CacheCountsTheRun, RunIsAsReference, RunsEndAlike};
ghost use Rattle.cli_call.specs.Meant.{TinyIsAsMeant};

use cli_programs::a_file_has_one_program;
use ijvm_meaning::runs_end_once;
use ijvm_simulation::{Interpreter, interpreters_agree};
use mal_shipped::loaded_programs_are_shipped;
use mic_clock::one_end;
use shipped_microcode::{Mic1Interpreter, Mic2Interpreter};
use tiny_compiler::{compiled_programs_run_as_meant, texts_compile_to_one_program};

/// Two calls over one file, `run` and `reference`, on the same machine and map, with the same bound and input, agree
/// where no fault comes and neither is out of memory.
pub fn run_agrees_with_reference()
    ensures { (machine : Machine) (file : List ℕ) (map : MemoryMap) (bound : ℕ) → RunIsAsReference machine file map bound }
{
    runs_end_once();
    a_file_has_one_program();
}

/// Two calls of `run` over one file, on Mic-1 and on Mic-2, with the same map and input, give the same output and the
/// same end where no fault comes, neither is out of memory and neither meets its bound.
pub fn run_agrees_on_both_machines()
    ensures { (file : List ℕ) (map : MemoryMap) (bound bound' : ℕ) → RunsEndAlike file map bound bound' }
{
    interpreters_agree::<Mic1Interpreter, Mic2Interpreter>();
    a_file_has_one_program();
}

/// Two calls over one file, `run` on Mic-1 and `cache`, with the same map, bound and input, make one run where no fault
/// comes and neither is out of memory: `cache` counts the hits and the misses of the run that `run` reports.
pub fn cache_counts_the_run()
    ensures { (file : List ℕ) (map : MemoryMap) (lines bound : ℕ) → CacheCountsTheRun file map lines bound }
{
    one_end(&Mic1Interpreter::machine());
    loaded_programs_are_shipped();
    a_file_has_one_program();
}

/// Calls of `tiny` over a file whose text compiles do what its program means, where no fault comes and none is out of memory.
pub fn tiny_does_what_is_meant()
    ensures { (text input : List ℕ) → TinyIsAsMeant text input }
{
    compiled_programs_run_as_meant();
    texts_compile_to_one_program();
    runs_end_once();
}

/// No step of Mic-1 or of Mic-2 takes back what was given. So where a sink fails in a session, standard output holds
/// a front of what its line gives, done whole.
pub fn machines_only_give()
    ensures mic1 { OnlyGives mic1_meaning }
    ensures mic2 { OnlyGives mic2_meaning }
{}
