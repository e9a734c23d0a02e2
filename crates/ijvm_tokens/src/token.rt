//! The tokens of a line, and the table of IJVM sources.

ghost use Rattle.std.specs.Prelude.{◌≡◌, ◌↔◌, Some, IfOk, IsErrOf, List, ℕ};
ghost use Rattle.ijvm_tokens.specs.declared.token.Token.{Token};
ghost use Rattle.ijvm_tokens.specs.Tokens.{SpellsTokens, read};

use crate::sign::Sign;
use mic_base::{Name, Number};
use source_text::{Language, TokenError, is_name_byte};
use std::alloc::Global;

/// A token of a line.
#[derive(Clone, Copy)]
pub enum Token {
    Sign(Sign),
    Name(Name),
    /// Its value, where it reads as a number.
    Number(Option<i64>),
}

/// The language of IJVM sources.
pub struct Ijvm;

impl Language for Ijvm {
    type Token = Token;

    ghost use Rattle.ijvm_tokens.specs.Tokens.{ijvm};

    ghost table = { ijvm };

    fn sign(text: &[u8]) -> Option<Token> {
        match Sign::find(text) {
            Some(sign) => Some(Token::Sign(sign)),
            None => None,
        }
    }

    fn number(text: &[u8]) -> Option<Token> {
        Some(Token::Number(Number::read(text).ok()))
    }

    fn name(name: Name) -> Token {
        Token::Name(name)
    }

    fn other() -> Option<Token> {
        None
    }

    fn has_minus() -> bool {
        true
    }

    fn has_quotes() -> bool {
        true
    }

    fn is_dotted(byte: u8) -> bool {
        is_name_byte(byte) || byte == b'-'
    }
}

/// The tokens that a line without its comment spells; BadToken where it spells none.
pub fn tokens_of(alloc: Global, line: &[u8]) -> Result<Vec<Token>, TokenError>
    ensures ok { IfOk result (λ tokens. SpellsTokens line.now tokens.items) }
    ensures bad { IsErrOf result TokenError.BadToken → (tokens : List Token) → SpellsTokens line.now tokens → ⊥ }
{
    source_text::tokens_of::<Ijvm>(alloc, line)
}

/// What is read from a line is what it spells: so it spells at most one list of tokens.
pub fn reads_what_is_spelled()
    ensures { (line : List ℕ) (tokens : List Token) → (read line ≡ Some tokens) ↔ SpellsTokens line tokens }
{
    source_text::reads_what_is_spelled::<Ijvm>();
}
