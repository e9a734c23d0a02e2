//! The list of a method's parameters.

ghost use Rattle.std.specs.Prelude.{◌≡◌, ◌<◌, IfOk};
ghost use Rattle.std.specs.List.{filter_map};
ghost use Rattle.ijvm_line.specs.Parameters.{name_of, parameters};
ghost use Rattle.ijvm_line.specs.Reading.{begins_comma, is_close, is_list, is_more};

use ijvm_tokens::{Sign, Token};
use mic_base::Name;
use std::alloc::{AllocError, Global};

fn is_close(tokens: &[Token]) -> bool
    ensures { result ≡ is_close tokens.now }
{
    matches!(tokens, [Token::Sign(Sign::Close)])
}

fn begins_comma(tokens: &[Token]) -> bool
    ensures value { result ≡ begins_comma tokens.now }
{
    matches!(tokens, [Token::Sign(Sign::Comma), Token::Name(_), ..])
}

fn is_more(tokens: &[Token]) -> bool
    ensures { result ≡ is_more tokens.now }
{
    let mut rest = tokens;
    while begins_comma(rest) {
        rest = &rest[2..];
    }
    is_close(rest)
}

/// Whether the tokens are a list of names with commas between, and then the closing parenthesis.
pub(crate) fn is_list(tokens: &[Token]) -> bool
    ensures { result ≡ is_list tokens.now }
{
    match tokens.split_first() {
        Some((Token::Name(_), rest)) => is_more(rest),
        _ => is_close(tokens),
    }
}

fn name_of(token: Token) -> Option<Name>
    ensures { result ≡ name_of token }
{
    match token {
        Token::Name(name) => Some(name),
        Token::Sign(_) | Token::Number(_) => None,
    }
}

/// The parameters that a method's line names.
pub fn parameters_of(alloc: Global, tokens: &[Token]) -> Result<Vec<Name>, AllocError>
    ensures { IfOk result (λ names. names.items ≡ parameters tokens.now) }
{
    tokens
        .iter()
        .skip(2)
        .filter_map(|token| name_of(*token))
        .collect(alloc)
}
