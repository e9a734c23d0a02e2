//! The tokens of an assignment.

ghost use Rattle.std.specs.Prelude.{◌≡◌, ◌≤◌, ◌+◌, ◌*◌, ◌++◌, ◌∷◌, [], length, option_to_list};
ghost use Rattle.mal_tokens.specs.declared.token.Token.{Token};
ghost use Rattle.mal_tokens.specs.declared.sign.Sign.{Sign};
ghost use Rattle.mal_line.specs.Prelude.{side, source_word, spelling, tail_with, dest_tokens, tail_tokens};
ghost use Rattle.mal_print.specs.StatementText.{assignment, dests_among, dests_of, has_dest, heads, is_absent, is_idle, is_nothing, present, tested};

use crate::token_list::{Tokens, add};
use mal_line::{Next, bit};
use mal_tokens::{Sign, Token, Word};
use micro_word::{AluOp, BusSource, Part, Shift, Test};

const DESTS: [Word; 9] = [
    Word::H,
    Word::Opc,
    Word::Tos,
    Word::Cpp,
    Word::Lv,
    Word::Sp,
    Word::Pc,
    Word::Mdr,
    Word::Mar,
];

const PLUS: Option<Token> = Some(Token::Sign(Sign::Plus));

const MINUS: Option<Token> = Some(Token::Sign(Sign::Minus));

const NOT: Option<Token> = Some(Token::Word(Word::Not));

const AND: Option<Token> = Some(Token::Word(Word::And));

const OR: Option<Token> = Some(Token::Word(Word::Or));

const ZERO: Option<Token> = Some(Token::Number(0));

const ONE: Option<Token> = Some(Token::Number(1));

fn has_dest(dests: u16, word: Word) -> bool
    ensures { result ≡ has_dest dests word }
{
    dests & bit(word) != 0
}

/// Appends a destination and its `=`.
fn add_dest(word: Word, tokens: &mut Tokens)
    requires { length tokens.old.items + 2 ≤ 48 }
    ensures all { tokens.new.items ≡ tokens.old.items ++ Token.Word word ∷ Token.Sign Sign.Equals ∷ [] }
    ensures len { length tokens.new.items ≡ length tokens.old.items + 2 }
{
    tokens.push(Token::Word(word));
    tokens.push(Token::Sign(Sign::Equals));
}

/// Appends those of the words that are destinations.
fn add_dests(dests: u16, words: &[Word], tokens: &mut Tokens)
    requires { length tokens.old.items + 2 * length words.now ≤ 48 }
    ensures all { tokens.new.items ≡ tokens.old.items ++ dest_tokens (dests_among dests words.now) }
    ensures len { length tokens.new.items ≤ length tokens.old.items + 2 * length words.now }
{
    if let Some((word, rest)) = words.split_first() {
        if has_dest(dests, *word) {
            add_dest(*word, tokens);
        }
        add_dests(dests, rest, tokens);
    }
}

fn is_nothing(dests: u16, words: &[Word]) -> bool
    ensures { result ≡ is_nothing (dests_among dests words.now) }
{
    match words.split_first() {
        None => true,
        Some((word, rest)) => !has_dest(dests, *word) && is_nothing(dests, rest),
    }
}

fn is_idle(part: &Part) -> bool
    ensures { result ≡ is_idle part.now }
{
    matches!((part.op, part.shift), (AluOp::Zero, Shift::None))
}

/// Whether nothing is computed and nothing assigned.
fn is_absent(part: &Part) -> bool
    ensures { result ≡ is_absent part.now }
{
    is_nothing(part.dests, &DESTS) && is_idle(part)
}

/// The destination of a value that no register takes.
fn tested(next: &Next<Token>) -> Word
    ensures { result ≡ tested next.now }
{
    match next {
        Next::Branch { test: Test::N, .. } => Word::N,
        _ => Word::Z,
    }
}

/// Appends the destinations, each with its `=`.
fn add_heads(dests: u16, next: &Next<Token>, tokens: &mut Tokens)
    requires { length tokens.old.items + 18 ≤ 48 }
    ensures all { tokens.new.items ≡ tokens.old.items ++ dest_tokens (heads (dests_of dests) next.now) }
    ensures len { length tokens.new.items ≤ length tokens.old.items + 18 }
{
    if is_nothing(dests, &DESTS) {
        add_dest(tested(next), tokens);
    } else {
        add_dests(dests, &DESTS, tokens);
    }
}

fn source_word(source: BusSource) -> Word
    ensures { result ≡ source_word source }
{
    match source {
        BusSource::Mdr => Word::Mdr,
        BusSource::Pc => Word::Pc,
        BusSource::Mbr => Word::Mbr,
        BusSource::Mbru => Word::Mbru,
        BusSource::Sp => Word::Sp,
        BusSource::Lv => Word::Lv,
        BusSource::Cpp => Word::Cpp,
        BusSource::Tos => Word::Tos,
        BusSource::Opc => Word::Opc,
        BusSource::Mbr1 => Word::Mbr1,
        BusSource::Mbr1u => Word::Mbr1u,
        BusSource::Mbr2 => Word::Mbr2,
        BusSource::Mbr2u => Word::Mbr2u,
        BusSource::H => Word::H,
    }
}

fn side(source: Option<BusSource>) -> Option<Token>
    ensures { option_to_list result ≡ side source }
{
    Some(Token::Word(source_word(source?)))
}

/// The tokens of an operation, by the table of expressions.
fn spelling(op: AluOp, a: Option<Token>, b: Option<Token>) -> [Option<Token>; 5]
    ensures { present result ≡ spelling op (option_to_list a) (option_to_list b) }
{
    match op {
        AluOp::A => [a, None, None, None, None],
        AluOp::B => [b, None, None, None, None],
        AluOp::NotA => [NOT, a, None, None, None],
        AluOp::NotB => [NOT, b, None, None, None],
        AluOp::Sum => [a, PLUS, b, None, None],
        AluOp::SumInc => [a, PLUS, b, PLUS, ONE],
        AluOp::IncA => [a, PLUS, ONE, None, None],
        AluOp::IncB => [b, PLUS, ONE, None, None],
        AluOp::Sub => [b, MINUS, a, None, None],
        AluOp::DecB => [b, MINUS, ONE, None, None],
        AluOp::NegA => [MINUS, a, None, None, None],
        AluOp::And => [a, AND, b, None, None],
        AluOp::Or => [a, OR, b, None, None],
        AluOp::Zero => [ZERO, None, None, None, None],
        AluOp::One => [ONE, None, None, None, None],
        AluOp::MinusOne => [MINUS, ONE, None, None, None],
    }
}

fn tail(shift: Shift) -> [Option<Token>; 2]
    ensures { present result ≡ tail_tokens (tail_with shift) }
{
    match shift {
        Shift::None => [None, None],
        Shift::Left8 => [Some(Token::Sign(Sign::Left)), Some(Token::Number(8))],
        Shift::Right1 => [Some(Token::Sign(Sign::Right)), Some(Token::Number(1))],
    }
}

/// The assignment, where there is one.
pub(crate) fn assignment(part: &Part, next: &Next<Token>) -> Tokens
    ensures all { result.items ≡ assignment part.now next.now }
    ensures len { length result.items ≤ 25 }
{
    let mut tokens = Tokens::new();
    if !is_absent(part) {
        add_heads(part.dests, next, &mut tokens);
        add(&mut tokens, &spelling(part.op, side(part.a), side(part.b)));
        add(&mut tokens, &tail(part.shift));
    }
    tokens
}
