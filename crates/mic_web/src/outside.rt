//! The outside of a call, in memory: files, a console and two sinks.

ghost use Rattle.std.specs.Prelude.{◌≡◌, ◌≢◌, Err, [], map, All, IfOk, IsErrOf};
ghost use Rattle.mic_base.specs.Memory.{files_contents, files_faults, sink_bytes, sink_faults, sink_passed};
ghost use Rattle.mic_web.specs.Called.{Filled, IsGiven};
ghost use Rattle.mic_web.specs.Given.{IsFileAt, file_given};
ghost use Rattle.mic_web.specs.Seen.{seen};

use crate::failing::Failing;
use crate::given::{FileSpans, NotMade, bytes_of, text_of};
use mic_base::{MemFiles, MemSink, MemSource};
use std::alloc::Global;

#[derive(Drop)]
pub(crate) struct PageOutside {
    pub(crate) files: MemFiles,
    pub(crate) console: MemSource,
    pub(crate) out: MemSink,
    pub(crate) err: MemSink,
}

/// The files that lie there.
fn files_of(
    alloc: Global,
    given: &[u8],
    spans: &[FileSpans],
    failing: &[u64],
) -> Result<MemFiles, NotMade>
    ensures filled { IfOk result (λ files. Filled (map (file_given given.now) spans.now) (files_contents files)) }
    ensures faults { IfOk result (λ files. files_faults files ≡ 0) }
    ensures no_call { IsErrOf result NotMade.NoCall → ¬ (All (IsFileAt given.now) spans.now) }
{
    let mut files = MemFiles::new(alloc, Vec::from_slice(alloc, failing)?);
    for span in spans {
        let name = text_of(given, span.name)?;
        let contents = bytes_of(given, span.contents)?;
        files.add(name, contents)?;
    }
    Ok(files)
}

/// A sink for as many bytes as the page has room for. It takes at most 4 GiB.
fn sink_for(alloc: Global, room: usize, failing: &[u64]) -> Result<MemSink, NotMade>
    ensures bytes { IfOk result (λ sink. sink_bytes sink ≡ []) }
    ensures passed { IfOk result (λ sink. sink_passed sink ≡ []) }
    ensures faults { IfOk result (λ sink. sink_faults sink ≡ 0) }
    ensures made { result ≢ Err NotMade.NoCall }
{
    let room = u32::try_from(room).unwrap_or(u32::MAX);
    Ok(MemSink::new(alloc, room, Vec::from_slice(alloc, failing)?)?)
}

impl PageOutside {
    /// The outside that is given.
    pub(crate) fn new(
        alloc: Global,
        given: &[u8],
        files: &[FileSpans],
        console: &[u8],
        failing: Failing<'_>,
        out_room: usize,
        err_room: usize,
    ) -> Result<PageOutside, NotMade>
        ensures given { IfOk result (λ outside. IsGiven given.now files.now console.now (seen outside)) }
        ensures no_call { IsErrOf result NotMade.NoCall → ¬ (All (IsFileAt given.now) files.now) }
    {
        let bytes = Vec::from_slice(alloc, console)?;
        Ok(PageOutside {
            files: files_of(alloc, given, files, failing.files)?,
            console: MemSource::new(bytes, Vec::from_slice(alloc, failing.console)?),
            out: sink_for(alloc, out_room, failing.out)?,
            err: sink_for(alloc, err_room, failing.err)?,
        })
    }
}
