//! The program `mic-check`: one call, with the words, the files and the streams that the system has.
#![tactic(auto)]

use cli_check::{check_main, misused};
use cli_outside::no_memory;
use mic_base::{ReadAhead, StdFiles, StdSink, StdSource, words_of};
use std::io;
use std::io::Lock;
use std::process::ExitCode;

fn main(rt: HostRuntime) -> ExitCode {
    let mut err = StdSink::new(rt.stderr());
    let status = match words_of(&rt) {
        Ok(words) => check_main(
            rt.alloc(),
            &words,
            &mut StdFiles::new(&rt),
            &mut StdSource::new(ReadAhead::new(rt.stdin().lock())),
            &mut StdSink::new(rt.stdout()),
            &mut err,
        ),
        Err(error) if error.kind() == io::ErrorKind::OutOfMemory => no_memory(&mut err),
        Err(_) => misused(&mut err),
    };
    ExitCode::from(status.0)
}
