//! The tokens of a line, in any language.

ghost use Rattle.std.specs.Prelude.{◌≡◌, ◌↔◌, ℕ, List, IfOk, IsErrOf, Some};
ghost use Rattle.source_text.specs.Reading.{read};
ghost use Rattle.source_text.specs.Tokens.{Spells, is_blank};

use crate::table::{Language, extent, token};
use std::alloc::{AllocFailed, Global};

/// Most lines have at most this many tokens.
const ROOM: usize = 12;

/// Why a line has no tokens.
#[derive(Clone, Copy, Debug, PartialEq, Eq)]
pub enum TokenError {
    BadToken,
    OutOfMemory,
}

/// The tokens that a line without its comment spells; BadToken if it does not spell tokens.
pub fn tokens_of<L: Language>(alloc: Global, line: &[u8]) -> Result<Vec<L::Token>, TokenError>
    ensures ok { IfOk result (λ tokens. Spells L.table line.now tokens.items) }
    ensures bad { IsErrOf result TokenError.BadToken → (tokens : List L.Token) → Spells L.table line.now tokens → ⊥ }
{
    let mut tokens = Vec::with_capacity(alloc, ROOM).map_err(|_| TokenError::OutOfMemory)?;
    let mut rest = line;
    while let Some((first, after)) = rest.split_first() {
        if is_blank(*first) {
            rest = after;
            continue;
        }
        let (text, left) = rest.split_at(extent::<L>(*first, after));
        let Some(token) = token::<L>(text) else {
            return Err(TokenError::BadToken);
        };
        tokens.push(token)?;
        rest = left;
    }
    Ok(tokens)
}

/// What is read from a line, token by token, is what it spells: so it spells at most one list of tokens.
pub fn reads_what_is_spelled<L: Language>()
    ensures { (line : List ℕ) (tokens : List L.Token) → (read L.table line ≡ Some tokens) ↔ Spells L.table line tokens }
{}

fn is_blank(byte: u8) -> bool
    ensures { result ≡ is_blank byte }
{
    byte == b' ' || byte == b'\t'
}

impl<T: Drop> From<AllocFailed<T>> for TokenError {
    ghost use Rattle.source_text.specs.declared.tokens.TokenError.TheVariants.{OutOfMemory};

    ghost from_gives = { λ _ e. e ≡ OutOfMemory };

    fn from(_: AllocFailed<T>) -> Self {
        TokenError::OutOfMemory
    }
}
