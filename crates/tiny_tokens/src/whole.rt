//! The tokens of a text.

ghost use Rattle.std.specs.Prelude.{◌≡◌, ◌<◌, ◌^◌, IfOk, length, max};
ghost use Rattle.std.specs.Str.Lines.{lines};
ghost use Rattle.tiny_tokens.specs.Tokens.{HasTokens};

use crate::held::Held;
use source_text::{first_line, read_lines};
use std::alloc::{AllocError, Global};
use tiny_draft::Token;
use tiny_lexemes::lines_have_one_reading;

/// The tokens of a text, in order.
pub fn tokens(alloc: Global, text: &[u8]) -> Result<Vec<Token>, AllocError>
    requires { length text.now < 2 ^ 30 }
    ensures { IfOk result (λ tokens. HasTokens text.now tokens.items) }
{
    lines_have_one_reading();
    let mut held = Held::new(alloc)?;
    read_lines(&mut held, text)?;
    Ok(held.into_tokens())
}

/// The number of the last line; 1 for a text without lines.
pub fn last_line(text: &[u8]) -> u32
    requires { length text.now < 2 ^ 30 }
    ensures { result ≡ max 1 (length (lines text.now)) }
{
    let mut rest = text;
    let mut count: u32 = 0;
    while !rest.is_empty() {
        let (_, after) = first_line(rest);
        rest = after;
        count += 1;
    }
    count.max(1)
}
