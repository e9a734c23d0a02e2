//! The tokens of a line, by the table of Tiny.

ghost use Rattle.std.specs.Prelude.{◌≡◌, ◌↔◌, Some, List, ℕ};
ghost use Rattle.mic_base.specs.Prelude.{number_of};
ghost use Rattle.tiny_lexemes.specs.declared.lexeme.Lexeme.{Lexeme};
ghost use Rattle.tiny_lexemes.specs.Lexemes.{SpellsLexemes, number_lexeme, read, value_by};

use crate::sign::find_sign;
use mic_base::{Name, Number};
use source_text::Language;
use tiny_draft::Sign;

/// A token of a line, by its text.
#[derive(Clone, Copy)]
pub enum Lexeme {
    Of(Sign),
    Name(Name),
    Number(u32),
    /// Bytes that are no token.
    Bad,
    /// A number that cannot be read.
    Unread,
}

/// The language of Tiny sources.
pub struct Tiny;

impl Language for Tiny {
    type Token = Lexeme;

    ghost use Rattle.tiny_lexemes.specs.Lexemes.{tiny};

    ghost table = { tiny };

    fn sign(text: &[u8]) -> Option<Lexeme> {
        match find_sign(text) {
            Some(sign) => Some(Lexeme::Of(sign)),
            None => None,
        }
    }

    fn number(text: &[u8]) -> Option<Lexeme> {
        Some(number_lexeme(text))
    }

    fn name(name: Name) -> Lexeme {
        Lexeme::Name(name)
    }

    fn other() -> Option<Lexeme> {
        Some(Lexeme::Bad)
    }

    fn has_minus() -> bool {
        false
    }

    fn has_quotes() -> bool {
        true
    }

    fn is_dotted(_byte: u8) -> bool {
        false
    }
}

fn number_value(text: &[u8]) -> Option<u32>
    ensures { result ≡ value_by (number_of text.now) }
{
    match Number::read(text) {
        Ok(value) => u32::try_from(value).ok(),
        Err(_) => None,
    }
}

fn number_lexeme(text: &[u8]) -> Lexeme
    ensures { result ≡ number_lexeme (value_by (number_of text.now)) }
{
    match number_value(text) {
        Some(value) => Lexeme::Number(value),
        None => Lexeme::Unread,
    }
}

/// A law: what is read from a line is what it spells, so it spells at most one list of tokens; and it spells one.
#[tactic(auto, using(crate::proofs::Some::reads_some))]
pub fn lines_have_one_reading()
    ensures one { (line : List ℕ) (lexemes : List Lexeme) → (read line ≡ Some lexemes) ↔ SpellsLexemes line lexemes }
    ensures some { (line : List ℕ) → (lexemes : List Lexeme) × (read line ≡ Some lexemes) }
{
    source_text::reads_what_is_spelled::<Tiny>();
}
