//! What a line says, or why it is refused.

ghost use Rattle.std.specs.Prelude.{◌≡◌};
ghost use Rattle.ijvm_line.specs.Reading.{line_from};

use crate::content::{Content, content_of};
use crate::form::form_of;
use crate::place::Place;
use ijvm_tokens::Token;

/// Why the tokens of a line are refused.
#[derive(Clone, Copy, Debug, PartialEq, Eq)]
pub enum LineFault {
    /// The tokens do not follow the grammar at that place.
    BadLine,
    /// A number cannot be read.
    BadNumber,
    /// A number is out of its range.
    OutOfRange,
}

/// What the tokens of a line say at the place where it stands, or the first refusal.
#[tactic(auto, unfolding(crate::specs::Reading::line_from))]
pub fn line_from(place: Place, tokens: &[Token]) -> Result<Content, LineFault>
    ensures { result ≡ line_from place tokens.now }
{
    match form_of(place, tokens) {
        Some(form) => content_of(form),
        None => Err(LineFault::BadLine),
    }
}
