//! What a page gives for a call: one slice of bytes, and the stretches of it that are words, names and contents.

ghost use Rattle.std.specs.Prelude.{◌≡◌, map, string_bytes, All, IfOk, IsErrOf};
ghost use Rattle.mic_web.specs.Given.{IsTextAt, IsWithin, stretch};

use std::alloc::{AllocError, Global};

/// From `start` up to `end`.
#[repr(C)]
#[derive(Clone, Copy)]
pub struct Span {
    pub start: usize,
    pub end: usize,
}

/// Where a file's name and contents lie.
#[repr(C)]
#[derive(Clone, Copy)]
pub struct FileSpans {
    pub name: Span,
    pub contents: Span,
}

/// Why no call is made.
#[derive(Clone, Copy)]
pub enum NotMade {
    OutOfMemory,
    /// A stretch does not lie within the bytes, or is no text where a text is wanted.
    NoCall,
}

impl From<AllocError> for NotMade {
    ghost use Rattle.mic_web.specs.declared.given.NotMade.TheVariants.{OutOfMemory};

    ghost from_gives = { λ _ e. e ≡ OutOfMemory };

    fn from(_error: AllocError) -> NotMade {
        NotMade::OutOfMemory
    }
}

/// The bytes of a stretch.
pub(crate) fn bytes_of(given: &[u8], span: Span) -> Result<&[u8], NotMade>
    ensures ok { IfOk result (λ bytes. bytes.now ≡ stretch given.now span) }
    ensures no_call { IsErrOf result NotMade.NoCall → ¬ (IsWithin given.now span) }
{
    match given.get(span.start..span.end) {
        Some(bytes) => Ok(bytes),
        None => Err(NotMade::NoCall),
    }
}

/// The text of a stretch.
pub(crate) fn text_of(given: &[u8], span: Span) -> Result<&str, NotMade>
    ensures ok { IfOk result (λ text. text.now ≡ stretch given.now span) }
    ensures no_call { IsErrOf result NotMade.NoCall → ¬ (IsTextAt given.now span) }
{
    match std::str::from_utf8(bytes_of(given, span)?) {
        Ok(text) => Ok(text),
        Err(_) => Err(NotMade::NoCall),
    }
}

/// The words that lie there.
pub(crate) fn words_of(alloc: Global, given: &[u8], spans: &[Span]) -> Result<Vec<String>, NotMade>
    ensures ok { IfOk result (λ words. map string_bytes words.items ≡ map (stretch given.now) spans.now) }
    ensures no_call { IsErrOf result NotMade.NoCall → ¬ (All (IsTextAt given.now) spans.now) }
{
    let mut words = Vec::new(alloc);
    for span in spans {
        let word = String::from_str(alloc, text_of(given, *span)?)?;
        if words.push(word).is_err() {
            return Err(NotMade::OutOfMemory);
        }
    }
    Ok(words)
}
