//! Why tokens spell no program.

ghost use Rattle.std.specs.Prelude.{◌≡◌};
ghost use Rattle.tiny_grammar.specs.Machine.{fault, fault_by};

use std::alloc::{AllocError, AllocFailed};
use tiny_draft::{Kind, Token};

/// Why tokens spell no program, with the line of the token that is refused.
#[derive(Clone, Copy, Debug, PartialEq, Eq)]
pub enum Refusal {
    BadToken(u32),
    BadNumber(u32),
    BadSyntax(u32),
    TooDeep(u32),
    /// The tokens end inside the program.
    Unfinished,
    OutOfMemory,
}

/// Why the first token, which does not follow the grammar, is refused.
pub(crate) fn refused(tokens: &[Token]) -> Refusal
    ensures { result ≡ fault tokens.now }
{
    match tokens.first() {
        None => Refusal::Unfinished,
        Some(token) => fault_of(*token),
    }
}

fn fault_of(token: Token) -> Refusal
    ensures { result ≡ fault_by token.kind token.line }
{
    match token.kind {
        Kind::Bad => Refusal::BadToken(token.line),
        Kind::Unread => Refusal::BadNumber(token.line),
        _ => Refusal::BadSyntax(token.line),
    }
}

impl From<AllocError> for Refusal {
    ghost use Rattle.tiny_grammar.specs.declared.refusal.Refusal.TheVariants.{OutOfMemory};

    ghost from_gives = { λ _ e. e ≡ OutOfMemory };

    fn from(_: AllocError) -> Self {
        Refusal::OutOfMemory
    }
}
