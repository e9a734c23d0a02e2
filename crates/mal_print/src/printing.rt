//! Tokens are printed one after the other.

ghost use Rattle.std.specs.Prelude.{◌≡◌, ◌≤◌, ◌<◌, ◌+◌, ◌++◌, [], length, codes, IfSome, if◌then◌else◌};
ghost use Rattle.mal_print.specs.Printed.{address_of, is_open, is_spaced, is_spacing, is_wordy, number_text, number_width, printed, token_text, token_width, width};

use mal_tokens::{Sign, Token};
use mic_base::Line;

fn is_wordy(token: &Token) -> bool
    ensures { result ≡ is_wordy token.now }
{
    match token {
        Token::Sign(sign) => matches!(sign, Sign::Label | Sign::Default),
        _ => true,
    }
}

fn is_open(token: &Token) -> bool
    ensures { result ≡ is_open token.now }
{
    matches!(token, Token::Sign(Sign::Open))
}

fn is_spacing(token: &Token) -> bool
    ensures { result ≡ is_spacing token.now }
{
    match token {
        Token::Sign(Sign::Close | Sign::Semicolon) => true,
        _ => is_wordy(token),
    }
}

fn is_spaced(spacing: bool, token: &Token) -> bool
    ensures { result ≡ is_spaced spacing token.now }
{
    is_open(token) || is_wordy(token) && spacing
}

/// The number, where three hexadecimal digits hold it.
fn address_of(value: i64) -> Option<u16>
    ensures is { result ≡ address_of value }
    ensures below { IfSome result (λ address. address < 4096) }
{
    if 0 <= value && value < 4096 {
        Some(value as u16)
    } else {
        None
    }
}

#[tactic(auto, using(crate::proofs::Widths::short_decimal))]
fn print_number(spaced: bool, value: i64, line: &mut Line)
    requires { length line.old + number_width (address_of value) ≤ 513 }
    ensures text { line.new ≡ line.old ++ number_text spaced (address_of value) value }
    ensures len { length line.new + 1 ≤ length line.old + number_width (address_of value) }
{
    match address_of(value) {
        Some(address) if spaced => {
            line.text("0x");
            line.hex(u64::from(address), 3);
        }
        _ => line.signed(value),
    }
}

fn print_token(spaced: bool, token: &Token, line: &mut Line)
    requires { length line.old + token_width token.now ≤ 512 }
    ensures text { line.new ≡ line.old ++ ((if spaced then codes " " else []) ++ token_text spaced token.now) }
    ensures len { length line.new ≤ length line.old + token_width token.now }
{
    if spaced {
        line.text(" ");
    }
    match token {
        Token::Word(word) => line.text(word.text()),
        Token::Sign(sign) => line.text(sign.text()),
        Token::Name(name) => line.text(name.text()),
        Token::Number(value) => print_number(spaced, *value, line),
    }
}

/// Appends the tokens, with the spaces that stand between them.
pub fn print_tokens(tokens: &[Token], line: &mut Line)
    requires { length line.old + width tokens.now ≤ 512 }
    ensures text { line.new ≡ line.old ++ printed tokens.now }
    ensures len { length line.new ≤ length line.old + width tokens.now }
{
    let mut rest = tokens;
    let mut spacing = false;
    while let Some((token, after)) = rest.split_first() {
        print_token(is_spaced(spacing, token), token, line);
        spacing = is_spacing(token);
        rest = after;
    }
}
