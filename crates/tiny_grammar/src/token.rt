//! Takes one token from the front, if it is the one that is expected.

ghost use Rattle.std.specs.Prelude.{◌≡◌, None, IfSome, IsNone, IfOk, IfErr, IsErr};
ghost use Rattle.tiny_grammar.specs.Machine.{comparison_of, fault, is_name, is_number, is_sign, is_the_sign, operator_of};
ghost use Rattle.tiny_grammar.specs.Reads.{ComparisonAt, NameAt, NumberAt, OperatorAt, Sees};
ghost use Rattle.tiny_grammar.specs.Tokens.{first_kind, first_line, rank, rest_of};

use crate::refusal::{Refusal, refused};
use tiny_draft::{Comparison, Kind, Sign, Token, Word};
use tiny_tree::Operator;

/// The number of a sign, in the order of their declaration.
fn rank(sign: Sign) -> u8
    ensures { result ≡ rank sign }
{
    match sign {
        Sign::Open => 0,
        Sign::Close => 1,
        Sign::Begin => 2,
        Sign::End => 3,
        Sign::Comma => 4,
        Sign::Semicolon => 5,
        Sign::Assign => 6,
        Sign::Equal => 7,
        Sign::Different => 8,
        Sign::Less => 9,
        Sign::Plus => 10,
        Sign::Minus => 11,
        Sign::And => 12,
        Sign::Or => 13,
        Sign::Fn => 14,
        Sign::Var => 15,
        Sign::If => 16,
        Sign::Else => 17,
        Sign::While => 18,
        Sign::Return => 19,
        Sign::Put => 20,
        Sign::Get => 21,
        Sign::Halt => 22,
    }
}

/// The kind of the first token; Bad where there is none.
fn first_kind(tokens: &[Token]) -> Kind
    ensures { result ≡ first_kind tokens.now }
{
    match tokens.first() {
        Some(token) => token.kind,
        None => Kind::Bad,
    }
}

/// The line of the first token; 0 where there is none.
pub(crate) fn first_line(tokens: &[Token]) -> u32
    ensures { result ≡ first_line tokens.now }
{
    match tokens.first() {
        Some(token) => token.line,
        None => 0,
    }
}

/// The tokens after the first one.
fn rest_of(tokens: &[Token]) -> &[Token]
    ensures { result.now ≡ rest_of tokens.now }
{
    match tokens.split_first() {
        Some((_, rest)) => rest,
        None => tokens,
    }
}

fn is_sign(kind: Kind, sign: Sign) -> bool
    ensures { result ≡ is_the_sign sign kind }
{
    match kind {
        Kind::Of(found) => rank(found) == rank(sign),
        _ => false,
    }
}

/// The tokens after the sign, where it comes first.
pub(crate) fn after_sign(tokens: &[Token], sign: Sign) -> Option<&[Token]>
    ensures some { IfSome result (λ rest. Sees sign tokens.now rest.now) }
    ensures none { IsNone result → is_sign sign (first_kind tokens.now) ≡ None }
{
    if is_sign(first_kind(tokens), sign) {
        Some(rest_of(tokens))
    } else {
        None
    }
}

/// The tokens after the sign, which has to come first.
pub(crate) fn expect(tokens: &[Token], sign: Sign) -> Result<&[Token], Refusal>
    ensures ok { IfOk result (λ rest. Sees sign tokens.now rest.now) }
    ensures none { IsErr result → is_sign sign (first_kind tokens.now) ≡ None }
    ensures err { IfErr result (λ e. e ≡ fault tokens.now) }
{
    match after_sign(tokens, sign) {
        Some(rest) => Ok(rest),
        None => Err(refused(tokens)),
    }
}

/// The number that comes first, and the tokens after it.
pub(crate) fn number(tokens: &[Token]) -> Option<(u32, &[Token])>
    ensures some { IfSome result (λ p. NumberAt p.0 tokens.now p.1.now) }
    ensures none { IsNone result → is_number (first_kind tokens.now) ≡ None }
{
    match first_kind(tokens) {
        Kind::Number(value) => Some((value, rest_of(tokens))),
        _ => None,
    }
}

/// The name that has to come first, and the tokens after it.
pub(crate) fn name(tokens: &[Token]) -> Result<(Word, &[Token]), Refusal>
    ensures ok { IfOk result (λ p. NameAt p.0 tokens.now p.1.now) }
    ensures none { IsErr result → is_name (first_kind tokens.now) ≡ None }
    ensures err { IfErr result (λ e. e ≡ fault tokens.now) }
{
    match first_kind(tokens) {
        Kind::Name(name) => Ok((Word::new(name, first_line(tokens)), rest_of(tokens))),
        _ => Err(refused(tokens)),
    }
}

/// The operator that comes first, and the tokens after it.
pub(crate) fn operator(tokens: &[Token]) -> Option<(Operator, &[Token])>
    ensures some { IfSome result (λ p. OperatorAt p.0 tokens.now p.1.now) }
    ensures none { IsNone result → operator_of (first_kind tokens.now) ≡ None }
{
    match operator_of(first_kind(tokens)) {
        Some(operator) => Some((operator, rest_of(tokens))),
        None => None,
    }
}

/// The comparison that comes first, and the tokens after it.
pub(crate) fn comparison(tokens: &[Token]) -> Option<(Comparison, &[Token])>
    ensures some { IfSome result (λ p. ComparisonAt p.0 tokens.now p.1.now) }
    ensures none { IsNone result → comparison_of (first_kind tokens.now) ≡ None }
{
    match comparison_of(first_kind(tokens)) {
        Some(comparison) => Some((comparison, rest_of(tokens))),
        None => None,
    }
}

/// The operator that this token is.
fn operator_of(kind: Kind) -> Option<Operator>
    ensures { result ≡ operator_of kind }
{
    let Kind::Of(sign) = kind else {
        return None;
    };
    match sign {
        Sign::Plus => Some(Operator::Plus),
        Sign::Minus => Some(Operator::Minus),
        Sign::And => Some(Operator::And),
        Sign::Or => Some(Operator::Or),
        _ => None,
    }
}

/// The comparison that this token is.
fn comparison_of(kind: Kind) -> Option<Comparison>
    ensures { result ≡ comparison_of kind }
{
    let Kind::Of(sign) = kind else {
        return None;
    };
    match sign {
        Sign::Equal => Some(Comparison::Equal),
        Sign::Different => Some(Comparison::Different),
        Sign::Less => Some(Comparison::Less),
        _ => None,
    }
}
