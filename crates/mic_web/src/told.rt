//! What the page is told of a call.

ghost use Rattle.std.specs.Prelude.{IfNone, IfSome};
ghost use Rattle.mic_web.specs.Called.{DoesNotFit, IsTold};
ghost use Rattle.mic_web.specs.Seen.{seen};

use crate::given::FileSpans;
use crate::outside::PageOutside;
use crate::written::{put_files, put_front};
use cli_outside::Status;

#[repr(C)]
#[derive(Clone, Copy)]
pub struct Told {
    pub status: usize,
    /// How many bytes were put to `out`, and to `err`.
    pub out: usize,
    pub err: usize,
    /// How many bytes of the console were not taken.
    pub left: usize,
    /// How many files were written.
    pub files: usize,
}

/// Writes out what came of the call. There is none where it does not fit.
pub(crate) fn tell(
    outside: &PageOutside,
    status: Status,
    out: &mut [u8],
    err: &mut [u8],
    written: &mut [u8],
    table: &mut [FileSpans],
) -> Option<Told>
    ensures told { IfSome result (λ told. IsTold told out.new err.new written.new table.new (seen outside.now) status.0) }
    ensures none { IfNone result (DoesNotFit out.new err.new written.new table.new (seen outside.now)) }
{
    let files = put_files(&outside.files, written, table)?;
    let out = put_front(out, outside.out.bytes())?;
    let err = put_front(err, outside.err.bytes())?;
    Some(Told {
        status: usize::from(status.0),
        out,
        err,
        left: outside.console.left().len(),
        files,
    })
}
