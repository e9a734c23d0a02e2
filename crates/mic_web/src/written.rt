//! The files that a call has written, for the page: names and contents one after another, and a table of where they lie.

ghost use Rattle.std.specs.Prelude.{◌≡◌, ◌<◌, ◌≤◌, ◌+◌, length, take, All, IfNone, IfSome};
ghost use Rattle.mic_base.specs.Memory.{files_contents};
ghost use Rattle.mic_web.specs.Written.{AreRows, AreTooMany, IsPut, IsRowOf};

use crate::given::{FileSpans, Span};
use mic_base::MemFiles;

/// Writes the bytes to the front, and returns how many they are. There is none where they do not fit.
pub(crate) fn put_front(to: &mut [u8], bytes: &[u8]) -> Option<usize>
    ensures count { IfSome result (λ count. count ≡ length bytes.now) }
    ensures front { IfSome result (λ count. take count to.new ≡ bytes.now) }
    ensures none { IfNone result (length to.new < length bytes.now) }
{
    let count = bytes.len();
    if count > to.len() {
        return None;
    }
    to[..count].copy_from_slice(bytes);
    Some(count)
}

/// Writes the bytes from `start` on, and returns where they lie.
fn put_at(to: &mut [u8], start: usize, bytes: &[u8]) -> Option<Span>
    requires { start ≤ length to.old }
    ensures put { IfSome result (IsPut to.old to.new start bytes.now) }
    ensures none { IfNone result (length to.new < start + length bytes.now) }
{
    if bytes.len() > to.len() - start {
        return None;
    }
    let end = start + bytes.len();
    to[start..end].copy_from_slice(bytes);
    Some(Span { start, end })
}

/// Writes a file from `start` on, and returns where it lies.
fn put_file(to: &mut [u8], start: usize, name: &[u8], contents: &[u8]) -> Option<FileSpans>
    requires { start ≤ length to.old }
    ensures row { IfSome result (IsRowOf to.old to.new start name.now contents.now) }
    ensures none { IfNone result (length to.new < start + (length name.now + length contents.now)) }
{
    let name = put_at(to, start, name)?;
    let contents = put_at(to, name.end, contents)?;
    Some(FileSpans { name, contents })
}

/// Writes the files that were written, and returns how many they are. There is none where they do not fit.
pub(crate) fn put_files(
    files: &MemFiles,
    written: &mut [u8],
    table: &mut [FileSpans],
) -> Option<usize>
    ensures count { IfSome result (λ count. count ≤ length table.new) }
    ensures rows { IfSome result (λ count. AreRows (files_contents files.now) written.new (length written.new) (take count table.new)) }
    ensures none { IfNone result (AreTooMany (files_contents files.now) (length table.new) (length written.new)) }
{
    let mut count = 0;
    let mut end = 0;
    for name in files.written() {
        if let Some(contents) = files.find(name) {
            if count == table.len() {
                return None;
            }
            let row = put_file(written, end, name.as_bytes(), contents)?;
            end = row.contents.end;
            table[count] = row;
            count += 1;
        }
    }
    Some(count)
}
