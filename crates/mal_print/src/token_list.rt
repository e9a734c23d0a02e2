//! The tokens of a line.

ghost use Rattle.std.specs.Prelude.{◌≡◌, ◌≤◌, ◌+◌, ◌++◌, length};
ghost use Rattle.mal_print.specs.StatementText.{beside, present};

use arrayvec::ArrayVec;
use mal_tokens::{Sign, Token};

/// The tokens of a line of canonical text, in order.
pub type Tokens = ArrayVec<Token, 48>;

/// Appends those of these tokens that are there.
pub(crate) fn add(tokens: &mut Tokens, more: &[Option<Token>])
    requires { length tokens.old.items + length more.now ≤ 48 }
    ensures all { tokens.new.items ≡ tokens.old.items ++ present more.now }
    ensures len { length tokens.new.items ≤ length tokens.old.items + length more.now }
{
    if let Some((token, rest)) = more.split_first() {
        if let Some(token) = token {
            tokens.push(*token);
        }
        add(tokens, rest);
    }
}

/// Appends a part, after a semicolon where there are others.
pub(crate) fn add_part(tokens: &mut Tokens, part: &[Token])
    requires { length tokens.old.items + length part.now + 1 ≤ 48 }
    ensures all { tokens.new.items ≡ beside tokens.old.items part.now }
    ensures len { length tokens.new.items ≤ length tokens.old.items + length part.now + 1 }
{
    if part.is_empty() {
        return;
    }
    if !tokens.is_empty() {
        tokens.push(Token::Sign(Sign::Semicolon));
    }
    tokens.try_extend_from_slice(part).unwrap();
}
