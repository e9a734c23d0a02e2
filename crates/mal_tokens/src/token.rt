//! Tokens, and the table of the microassembly language.

ghost use Rattle.std.specs.Prelude.{◌≡◌, ◌↔◌, Some, IfOk, IsErrOf, List, ℕ};
ghost use Rattle.mal_tokens.specs.declared.sign.Sign.{Sign};
ghost use Rattle.mal_tokens.specs.declared.token.Token.{Token};
ghost use Rattle.mal_tokens.specs.Tokens.{SpellsTokens, read};

use crate::sign::Sign;
use crate::word::Word;
use mic_base::{Name, Number};
use source_text::{Language, TokenError, is_name_byte};
use std::alloc::Global;

/// A token of a line.
#[derive(Clone, Copy)]
pub enum Token {
    Word(Word),
    Sign(Sign),
    Name(Name),
    /// The value of the number.
    Number(i64),
}

/// The semicolon, which is the empty statement.
impl Default for Token {
    ghost is_default = { λ token. token ≡ Token.Sign Sign.Semicolon };

    fn default() -> Token {
        Token::Sign(Sign::Semicolon)
    }
}

/// The microassembly language.
pub struct Mal;

impl Language for Mal {
    type Token = Token;

    ghost use Rattle.mal_tokens.specs.Tokens.{mal};

    ghost table = { mal };

    fn sign(text: &[u8]) -> Option<Token> {
        match Word::find(text) {
            Some(word) => Some(Token::Word(word)),
            None => match Sign::find(text) {
                Some(sign) => Some(Token::Sign(sign)),
                None => None,
            },
        }
    }

    fn number(text: &[u8]) -> Option<Token> {
        match Number::read(text) {
            Ok(value) => Some(Token::Number(value)),
            Err(_) => None,
        }
    }

    fn name(name: Name) -> Token {
        Token::Name(name)
    }

    fn other() -> Option<Token> {
        None
    }

    fn has_minus() -> bool {
        false
    }

    fn has_quotes() -> bool {
        false
    }

    fn is_dotted(byte: u8) -> bool {
        is_name_byte(byte)
    }
}

/// The tokens that a line without its comment spells; BadToken if it does not spell tokens.
pub fn tokens_of(alloc: Global, line: &[u8]) -> Result<Vec<Token>, TokenError>
    ensures ok { IfOk result (λ tokens. SpellsTokens line.now tokens.items) }
    ensures bad { IsErrOf result TokenError.BadToken → (tokens : List Token) → SpellsTokens line.now tokens → ⊥ }
{
    source_text::tokens_of::<Mal>(alloc, line)
}

/// What is read from a line is what it spells: so it spells at most one list of tokens.
pub fn reads_what_is_spelled()
    ensures { (line : List ℕ) (tokens : List Token) → (read line ≡ Some tokens) ↔ SpellsTokens line tokens }
{
    source_text::reads_what_is_spelled::<Mal>();
}
