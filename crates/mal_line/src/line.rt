//! A line and its form.
ghost use Rattle.std.specs.Prelude.{◌≡◌, IfOk, IfErr};
ghost use Rattle.mal_line.specs.Lines.{HasPart, is_foreign, IsRefused, names_foreign, SpellsLine};
ghost use Rattle.mal_line.specs.Reading.{after_colon, fix_of, form_of, labelled, line_from};

use crate::content::{Content, content_of};
use crate::gathering::tree_of;
use crate::tree::Tree;
use mal_tokens::{Sign, Token, Word};
use mic_base::Name;
use micro_word::Machine;

/// Why the tokens of a line are refused.
#[derive(Clone, Copy, Debug, PartialEq, Eq)]
pub enum LineFault {
    BadStatement,
    WrongMachine,
    NoSuchOperation,
}

/// A line by its form.
#[derive(Clone, Copy)]
pub enum Form {
    Nothing,
    Fix(Name, i64),
    Fallback(Tree),
    Statement(Option<Name>, Tree),
}

fn fix_of(rest: &[Token]) -> Option<Form>
    ensures { result ≡ fix_of rest.now }
{
    match rest {
        [Token::Name(label), Token::Number(address)] => Some(Form::Fix(*label, *address)),
        _ => None,
    }
}

fn after_colon(rest: &[Token]) -> &[Token]
    ensures { result.now ≡ after_colon rest.now }
{
    match rest.split_first() {
        Some((Token::Sign(Sign::Colon), after)) => after,
        _ => rest,
    }
}

fn labelled(machine: Machine, label: Option<Name>, tokens: &[Token]) -> Option<Form>
    ensures { result ≡ labelled machine label tokens.now }
{
    Some(Form::Statement(label, tree_of(machine, tokens)?))
}

fn form_of(machine: Machine, tokens: &[Token]) -> Option<Form>
    ensures { result ≡ form_of machine tokens.now }
{
    let Some((first, rest)) = tokens.split_first() else {
        return Some(Form::Nothing);
    };
    match *first {
        Token::Sign(Sign::Label) => fix_of(rest),
        Token::Sign(Sign::Default) => Some(Form::Fallback(tree_of(machine, rest)?)),
        Token::Name(label) => labelled(machine, Some(label), after_colon(rest)),
        _ => labelled(machine, None, tokens),
    }
}

fn is_foreign(machine: Machine, token: Token) -> bool
    ensures { result ≡ is_foreign machine token }
{
    match token {
        Token::Word(word) => match machine {
            Machine::Mic1 => { matches!(word, Word::Mbr1 | Word::Mbr1u | Word::Mbr2 | Word::Mbr2u) }
            Machine::Mic2 => matches!(word, Word::Mbr | Word::Mbru | Word::Fetch),
        },
        _ => false,
    }
}

fn names_foreign(machine: Machine, tokens: &[Token]) -> bool
    ensures { result ≡ names_foreign machine tokens.now }
{
    tokens.iter().any(|token| is_foreign(machine, *token))
}

/// What the tokens of a line say, or the first refusal.
pub fn line_from(machine: Machine, tokens: &[Token]) -> Result<Content, LineFault>
    ensures spells { IfOk result (SpellsLine machine tokens.now) }
    ensures refused { IfErr result (IsRefused machine tokens.now) }
    ensures value { result ≡ line_from machine tokens.now }
    ensures part { IfOk result (HasPart machine) }
{
    read(machine, tokens)
}

#[tactic(auto, unfolding(crate::specs::Reading::line_from))]
fn read(machine: Machine, tokens: &[Token]) -> Result<Content, LineFault>
    ensures { result ≡ line_from machine tokens.now }
{
    let Some(form) = form_of(machine, tokens) else {
        return Err(LineFault::BadStatement);
    };
    if names_foreign(machine, tokens) {
        return Err(LineFault::WrongMachine);
    }
    match content_of(form) {
        Some(content) => Ok(content),
        None => Err(LineFault::NoSuchOperation),
    }
}
