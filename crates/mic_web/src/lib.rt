//! Calls of `mic` and `mic-check` from a page: the page writes words, files and console input into the module's memory, and
//! reads there what came of the call. It is a static library with a function for each program.
#![tactic(auto)]

ghost use Rattle.std.specs.Prelude.{◌≡◌, ◌≢◌, ◌≤◌, ◌⊎◌};
ghost use Rattle.mic_web.specs.Called.{IsCalled, IsCheckCall, IsMicCall, IsUnfit, IsUntouched};
ghost use Rattle.mic_web.specs.Given.{IsCallGiven};

mod call;
mod failing;
mod given;
mod outside;
mod program;
mod told;
mod written;

use call::Call;
use failing::Failing;
use given::{FileSpans, NotMade, Span};
use program::{Mic, MicCheck, Program};
use std::alloc::Global;
use told::Told;

/// Makes the call of a program that lies in `given`, and returns 0. Status and lengths are then in `told`, what was printed
/// in the fronts of `out` and `err`, and the files that were written in `written`, as the front of `table` says. It returns
/// 1 where memory runs out before the call, 2 where what is given is no call, and 3 where the written files do not fit.
fn call_of<P: Program>(
    alloc: Global,
    given: &[u8],
    words: &[Span],
    files: &[FileSpans],
    console: &[u8],
    failing: Failing<'_>,
    out: &mut [u8],
    err: &mut [u8],
    written: &mut [u8],
    table: &mut [FileSpans],
    told: &mut Told,
) -> u32
    ensures called { result ≡ 0 → IsCalled P.Ends given.now words.now files.now console.now told.new out.new err.new written.new table.new }
    ensures no_call { result ≡ 2 → ¬ (IsCallGiven given.now words.now files.now) }
    ensures unfit { result ≡ 3 → IsUnfit P.Ends given.now words.now files.now console.now out.new err.new written.new table.new }
    ensures untouched { (result ≡ 1) ⊎ (result ≡ 2) → IsUntouched out.old err.old written.old table.old out.new err.new written.new table.new }
    ensures untold { result ≢ 0 → told.new ≡ told.old }
    ensures others { result ≤ 3 }
{
    match Call::new(
        alloc,
        given,
        words,
        files,
        console,
        failing,
        out.len(),
        err.len(),
    ) {
        Err(NotMade::OutOfMemory) => 1,
        Err(NotMade::NoCall) => 2,
        Ok(call) => match call.make::<P>(out, err, written, table) {
            None => 3,
            Some(now) => {
                *told = now;
                0
            }
        },
    }
}

/// Makes the call of `mic` that lies in `given`, as `call_of` says. The calls of each part of the outside that are numbered
/// in `fail_files`, `fail_console`, `fail_out` and `fail_err` fail.
#[unsafe(no_mangle)]
pub extern "C" fn mic_web_call(
    alloc: Global,
    given: &[u8],
    words: &[Span],
    files: &[FileSpans],
    console: &[u8],
    fail_files: &[u64],
    fail_console: &[u64],
    fail_out: &[u64],
    fail_err: &[u64],
    out: &mut [u8],
    err: &mut [u8],
    written: &mut [u8],
    table: &mut [FileSpans],
    told: &mut Told,
) -> u32
    ensures called { result ≡ 0 → IsCalled IsMicCall given.now words.now files.now console.now told.new out.new err.new written.new table.new }
    ensures no_call { result ≡ 2 → ¬ (IsCallGiven given.now words.now files.now) }
    ensures unfit { result ≡ 3 → IsUnfit IsMicCall given.now words.now files.now console.now out.new err.new written.new table.new }
    ensures untouched { (result ≡ 1) ⊎ (result ≡ 2) → IsUntouched out.old err.old written.old table.old out.new err.new written.new table.new }
    ensures untold { result ≢ 0 → told.new ≡ told.old }
    ensures others { result ≤ 3 }
{
    call_of::<Mic>(
        alloc,
        given,
        words,
        files,
        console,
        Failing {
            files: fail_files,
            console: fail_console,
            out: fail_out,
            err: fail_err,
        },
        out,
        err,
        written,
        table,
        told,
    )
}

/// Makes the call of `mic-check` that lies in `given`, as `mic_web_call` makes that of `mic`.
#[unsafe(no_mangle)]
pub extern "C" fn mic_check_call(
    alloc: Global,
    given: &[u8],
    words: &[Span],
    files: &[FileSpans],
    console: &[u8],
    fail_files: &[u64],
    fail_console: &[u64],
    fail_out: &[u64],
    fail_err: &[u64],
    out: &mut [u8],
    err: &mut [u8],
    written: &mut [u8],
    table: &mut [FileSpans],
    told: &mut Told,
) -> u32
    ensures called { result ≡ 0 → IsCalled IsCheckCall given.now words.now files.now console.now told.new out.new err.new written.new table.new }
    ensures no_call { result ≡ 2 → ¬ (IsCallGiven given.now words.now files.now) }
    ensures unfit { result ≡ 3 → IsUnfit IsCheckCall given.now words.now files.now console.now out.new err.new written.new table.new }
    ensures untouched { (result ≡ 1) ⊎ (result ≡ 2) → IsUntouched out.old err.old written.old table.old out.new err.new written.new table.new }
    ensures untold { result ≢ 0 → told.new ≡ told.old }
    ensures others { result ≤ 3 }
{
    call_of::<MicCheck>(
        alloc,
        given,
        words,
        files,
        console,
        Failing {
            files: fail_files,
            console: fail_console,
            out: fail_out,
            err: fail_err,
        },
        out,
        err,
        written,
        table,
        told,
    )
}
