//! A call over what a page gives.

ghost use Rattle.std.specs.Prelude.{IfNone, IfOk, IfSome, IsErrOf, map, string_bytes};
ghost use Rattle.mic_web.specs.Called.{IsMade, IsReady, IsUnfitAfter};
ghost use Rattle.mic_web.specs.Given.{IsCallGiven};
ghost use Rattle.mic_web.specs.Seen.{seen};

use crate::failing::Failing;
use crate::given::{FileSpans, NotMade, Span, words_of};
use crate::outside::PageOutside;
use crate::program::Program;
use crate::told::{Told, tell};
use std::alloc::Global;

/// A call that can be made: its words, and the outside as it finds it.
#[derive(Drop)]
pub(crate) struct Call {
    alloc: Global,
    words: Vec<String>,
    outside: PageOutside,
}

impl Call {
    pub(crate) fn new(
        alloc: Global,
        given: &[u8],
        words: &[Span],
        files: &[FileSpans],
        console: &[u8],
        failing: Failing<'_>,
        out_room: usize,
        err_room: usize,
    ) -> Result<Call, NotMade>
        ensures ready { IfOk result (λ call. IsReady given.now words.now files.now console.now (map string_bytes call.words.items) (seen call.outside)) }
        ensures no_call { IsErrOf result NotMade.NoCall → ¬ (IsCallGiven given.now words.now files.now) }
    {
        let words = words_of(alloc, given, words)?;
        let outside = PageOutside::new(alloc, given, files, console, failing, out_room, err_room)?;
        Ok(Call {
            alloc,
            words,
            outside,
        })
    }

    /// Makes the call of a program, and writes out what came of it. There is none where that does not fit.
    pub(crate) fn make<P: Program>(
        self,
        out: &mut [u8],
        err: &mut [u8],
        written: &mut [u8],
        table: &mut [FileSpans],
    ) -> Option<Told>
        ensures made { IfSome result (λ told. IsMade P.Ends (map string_bytes self.words.items) (seen self.outside) told out.new err.new written.new table.new) }
        ensures none { IfNone result
            (IsUnfitAfter P.Ends (map string_bytes self.words.items) (seen self.outside) out.new err.new written.new table.new) }
    {
        let Call {
            alloc,
            words,
            mut outside,
        } = self;
        let status = P::call(alloc, &words, &mut outside);
        tell(&outside, status, out, err, written, table)
    }
}
