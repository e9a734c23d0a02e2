//! Assignments: their destinations, and the expression after them.
ghost use Rattle.std.specs.Prelude.{◌≡◌, ◌≤◌, false, length};
ghost use Rattle.std.specs.List.{prefix_len};
ghost use Rattle.mal_line.specs.Chains.{bit, is_dest, is_expr, register_of};
ghost use Rattle.mal_line.specs.Reading.{assigned, chain_at, dest_of, last, shifting, tail_of};

use crate::expression::coding_of;
use crate::operation::Operation;
use mal_tokens::{Sign, Token, Word};
use micro_word::{Destination, Machine};

/// What may follow an expression: a shift and its number.
#[derive(Clone, Copy)]
pub enum Tail {
    Nothing,
    Left(i64),
    Right(i64),
}

/// An assignment, as it is written.
#[derive(Clone, Copy)]
pub struct Assignment {
    /// The nine C bits.
    pub dests: u16,
    /// None where the expression has no coding.
    pub operation: Option<Operation>,
}

/// The register of a word, where C loads it.
fn register_of(word: Word) -> Option<Destination>
    ensures { result ≡ register_of word }
{
    match word {
        Word::H => Some(Destination::H),
        Word::Opc => Some(Destination::Opc),
        Word::Tos => Some(Destination::Tos),
        Word::Cpp => Some(Destination::Cpp),
        Word::Lv => Some(Destination::Lv),
        Word::Sp => Some(Destination::Sp),
        Word::Pc => Some(Destination::Pc),
        Word::Mdr => Some(Destination::Mdr),
        Word::Mar => Some(Destination::Mar),
        _ => None,
    }
}

/// The bit of C of a register's word; other words have none.
pub fn bit(word: Word) -> u16
    ensures { result ≡ bit word }
{
    match register_of(word) {
        Some(register) => register.bit(),
        None => 0,
    }
}

/// Whether a word is a destination; N and Z are, and assign nothing.
fn is_dest(word: Word) -> bool
    ensures { result ≡ is_dest word }
{
    match word {
        Word::N | Word::Z => true,
        _ => register_of(word).is_some(),
    }
}

/// A destination and its `=`.
fn dest_of(token: Token, equals: Token) -> Option<Word>
    ensures { result ≡ dest_of token equals }
{
    match (token, equals) {
        (Token::Word(word), Token::Sign(Sign::Equals)) => if is_dest(word) {
            Some(word)
        } else {
            None
        },
        _ => None,
    }
}

fn is_expr(token: Token) -> bool
    ensures { result ≡ is_expr token }
{
    match token {
        Token::Word(word) => !matches!(
            word,
            Word::N
                | Word::Z
                | Word::Rd
                | Word::Wr
                | Word::Fetch
                | Word::Goto
                | Word::If
                | Word::Else
        ),
        Token::Sign(sign) => matches!(sign, Sign::Plus | Sign::Minus),
        Token::Name(_) => false,
        Token::Number(_) => true,
    }
}

fn expr_len(tokens: &[Token]) -> usize
    ensures value { result ≡ prefix_len is_expr tokens.now }
    ensures small { result ≤ length tokens.now }
{
    tokens.iter().take_while(|token| is_expr(**token)).count()
}

fn shifting(sign: Token, by: Token) -> Option<Tail>
    ensures { result ≡ shifting sign by }
{
    match (sign, by) {
        (Token::Sign(Sign::Left), Token::Number(by)) => Some(Tail::Left(by)),
        (Token::Sign(Sign::Right), Token::Number(by)) => Some(Tail::Right(by)),
        _ => None,
    }
}

fn tail_of(tokens: &[Token]) -> Option<Tail>
    ensures { result ≡ tail_of tokens.now }
{
    match tokens {
        [] => Some(Tail::Nothing),
        [sign, by] => shifting(*sign, *by),
        _ => None,
    }
}

fn assigned(machine: Machine, dests: u16, tokens: &[Token]) -> Option<Assignment>
    ensures { result ≡ assigned machine dests tokens.now }
{
    let (body, rest) = tokens.split_at(expr_len(tokens));
    if body.is_empty() {
        return None;
    }
    match tail_of(rest) {
        Some(tail) => Some(Assignment {
            dests,
            operation: coding_of(machine, body, tail),
        }),
        None => None,
    }
}

fn last(machine: Machine, some: bool, dests: u16, tokens: &[Token]) -> Option<Assignment>
    ensures { result ≡ last machine some dests tokens.now }
{
    if some {
        assigned(machine, dests, tokens)
    } else {
        None
    }
}

/// The assignment that these tokens spell.
pub(crate) fn chain_of(machine: Machine, tokens: &[Token]) -> Option<Assignment>
    ensures { result ≡ chain_at machine false 0 tokens.now }
{
    let mut dests = 0;
    let mut some = false;
    let mut at = 0;
    while at + 1 < tokens.len() {
        match dest_of(tokens[at], tokens[at + 1]) {
            Some(word) => {
                dests |= bit(word);
                some = true;
                at += 2;
            }
            None => return last(machine, some, dests, &tokens[at..]),
        }
    }
    last(machine, some, dests, &tokens[at..])
}
