//! The tokens of a line, one after the other.

ghost use Rattle.std.specs.Prelude.{◌≡◌};
ghost use Rattle.source_text.specs.Prelude.{is_blank};

use crate::held::Held;
use source_text::{Reader, extent, token};
use std::alloc::AllocError;
use tiny_lexemes::{Tiny, lines_have_one_reading};

impl Reader for Held {
    type Refusal = AllocError;

    ghost use Rattle.std.specs.Prelude.{true};
    ghost use Rattle.tiny_tokens.specs.Reading.{HeldView, step};

    ghost State = { HeldView };

    ghost state = { λ held. held };

    ghost step = { step };

    ghost is_memory = { λ _. true };

    fn line(&mut self, number: u32, line: &[u8]) -> Result<(), AllocError> {
        lines_have_one_reading();
        let mut rest = line;
        while let Some((first, after)) = rest.split_first() {
            if is_blank(*first) {
                rest = after;
                continue;
            }
            let (text, left) = rest.split_at(extent::<Tiny>(*first, after));
            if let Some(lexeme) = token::<Tiny>(text) {
                self.add(number, lexeme)?;
            }
            rest = left;
        }
        Ok(())
    }
}

fn is_blank(byte: u8) -> bool
    ensures { result ≡ is_blank byte }
{
    byte == b' ' || byte == b'\t'
}
