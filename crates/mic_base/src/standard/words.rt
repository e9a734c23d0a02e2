//! The words of a call.

use std::alloc::AllocGlobal;
use std::{env, io, rt};

/// The words after the program's name.
// In a function of its own, so that the loops of the clock begin at multiples of 32 (benchmarks/README.md).
#[inline(never)]
pub fn words_of<R: rt::Env + AllocGlobal>(rt: &R) -> io::Result<Vec<String>> {
    let mut words = Vec::new(rt.alloc());
    for word in env::args(rt)?.skip(1) {
        words.push(word)?;
    }
    Ok(words)
}
