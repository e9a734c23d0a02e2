//! The form of a line at its place.

ghost use Rattle.std.specs.Prelude.{◌≡◌};
ghost use Rattle.ijvm_line.specs.Reading.{code, constant_of, form_of, is_open, labelled, local_of, mark_at, method_of, named, signed};

use crate::parameters::is_list;
use crate::place::{Mark, Place};
use crate::statement::{Statement, statement_of};
use ijvm_tokens::{Sign, Token};
use mic_base::Name;

/// A line by its form, its numbers not yet looked at.
#[derive(Clone, Copy)]
pub enum Form {
    Nothing,
    Mark(Mark),
    /// `.method NAME(P, P)`
    Method(Name),
    /// `NAME NUMBER`
    Constant(Name, Option<i64>),
    /// `NAME`
    Local(Name),
    /// `[LABEL:] [INSTRUCTION]`, not both missing
    Code(Option<Name>, Option<Statement>),
}

fn method_of(rest: &[Token]) -> Option<Form>
    ensures { result ≡ method_of rest.now }
{
    let (first, after) = rest.split_first()?;
    let Token::Name(name) = *first else {
        return None;
    };
    let (second, list) = after.split_first()?;
    if is_open(*second) && is_list(list) {
        Some(Form::Method(name))
    } else {
        None
    }
}

fn is_open(token: Token) -> bool
    ensures { result ≡ is_open token }
{
    matches!(token, Token::Sign(Sign::Open))
}

fn mark_at(place: Place, sign: Sign, rest: &[Token]) -> Option<Form>
    ensures { result ≡ mark_at place sign rest.now }
{
    match rest {
        [] => Some(Form::Mark(Mark::find(place, sign)?)),
        _ => None,
    }
}

fn signed(place: Place, sign: Sign, rest: &[Token]) -> Option<Form>
    ensures { result ≡ signed place sign rest.now }
{
    match (place, sign) {
        (Place::Outside, Sign::Method) => method_of(rest),
        _ => mark_at(place, sign, rest),
    }
}

fn constant_of(name: Name, rest: &[Token]) -> Option<Form>
    ensures { result ≡ constant_of name rest.now }
{
    match rest {
        [Token::Number(value)] => Some(Form::Constant(name, *value)),
        _ => None,
    }
}

fn local_of(name: Name, rest: &[Token]) -> Option<Form>
    ensures { result ≡ local_of name rest.now }
{
    match rest {
        [] => Some(Form::Local(name)),
        _ => None,
    }
}

fn labelled(label: Name, rest: &[Token]) -> Option<Form>
    ensures { result ≡ labelled label rest.now }
{
    if rest.is_empty() {
        return Some(Form::Code(Some(label), None));
    }
    Some(Form::Code(Some(label), Some(statement_of(rest)?)))
}

fn code(name: Name, tokens: &[Token]) -> Option<Form>
    ensures { result ≡ code name tokens.now }
{
    let (_, rest) = tokens.split_first()?;
    match rest.split_first() {
        Some((Token::Sign(Sign::Colon), after)) => labelled(name, after),
        _ => Some(Form::Code(None, Some(statement_of(tokens)?))),
    }
}

/// The form of a line that stands at this place.
pub(crate) fn form_of(place: Place, tokens: &[Token]) -> Option<Form>
    ensures { result ≡ form_of place tokens.now }
{
    let Some((first, rest)) = tokens.split_first() else {
        return Some(Form::Nothing);
    };
    match *first {
        Token::Sign(sign) => signed(place, sign, rest),
        Token::Name(name) => named(place, name, tokens, rest),
        Token::Number(_) => None,
    }
}

fn named(place: Place, name: Name, tokens: &[Token], rest: &[Token]) -> Option<Form>
    ensures { result ≡ named place name tokens.now rest.now }
{
    match place {
        Place::Outside => None,
        Place::Constants => constant_of(name, rest),
        Place::Locals => local_of(name, rest),
        Place::Code => code(name, tokens),
    }
}
