//! The programs that a page calls.

ghost use Rattle.std.specs.Prelude.{ℕ, List, map, string_bytes};
ghost use Rattle.cli_outside.specs.Outside.{OutsideView};
ghost use Rattle.mic_web.specs.Seen.{seen};

use crate::outside::PageOutside;
use cli_call::mic_main;
use cli_check::check_main;
use cli_outside::Status;
use std::alloc::Global;

/// A program over a page's outside.
pub(crate) trait Program {
    /// How a call ends: its words, the outside before and after it, and its status.
    ghost Ends: { List (List ℕ) → OutsideView → OutsideView → ℕ → Type 0 };

    fn call(alloc: Global, words: &[String], outside: &mut PageOutside) -> Status
        ensures { Ends (map string_bytes words.now) (seen outside.old) (seen outside.new) result.0 };
}

pub(crate) struct Mic;

impl Program for Mic {
    ghost use Rattle.mic_web.specs.Called.{IsMicCall};

    ghost Ends = { IsMicCall };

    fn call(alloc: Global, words: &[String], outside: &mut PageOutside) -> Status {
        mic_main(
            alloc,
            words,
            &mut outside.files,
            &mut outside.console,
            &mut outside.out,
            &mut outside.err,
        )
    }
}

pub(crate) struct MicCheck;

impl Program for MicCheck {
    ghost use Rattle.mic_web.specs.Called.{IsCheckCall};

    ghost Ends = { IsCheckCall };

    fn call(alloc: Global, words: &[String], outside: &mut PageOutside) -> Status {
        check_main(
            alloc,
            words,
            &mut outside.files,
            &mut outside.console,
            &mut outside.out,
            &mut outside.err,
        )
    }
}
