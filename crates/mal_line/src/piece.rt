//! What stands between two semicolons.
ghost use Rattle.std.specs.Prelude.{◌≡◌};
ghost use Rattle.mal_line.specs.Reading.{by_offset, dispatch, else_of, goto_of, if_of, piece_of, test_of};
ghost use Rattle.mal_line.specs.Statements.{is_byte_word};

use crate::chain::{Assignment, chain_of};
use crate::next::Next;
use crate::tree::Jump;
use mal_tokens::{Sign, Token, Word};
use mic_base::Name;
use micro_word::{Machine, Mem, Test};

/// What stands between two semicolons.
#[derive(Clone, Copy)]
pub(crate) enum Piece {
    Nothing,
    Assign(Assignment),
    Mem(Mem),
    Fetch,
    Jump(Jump),
    If(Test, Name),
    Else(Name),
}

fn is_byte_word(word: Word) -> bool
    ensures { result ≡ is_byte_word word }
{
    matches!(word, Word::Mbr | Word::Mbr1)
}

fn by_offset(offset: i64) -> Jump
    ensures { result ≡ by_offset offset }
{
    match offset {
        0x100 => Some(Next::Dispatch { high: true }),
        _ => None,
    }
}

fn dispatch(word: Word, jump: Jump) -> Option<Piece>
    ensures { result ≡ dispatch word jump }
{
    if is_byte_word(word) {
        Some(Piece::Jump(jump))
    } else {
        None
    }
}

fn goto_of(rest: &[Token]) -> Option<Piece>
    ensures { result ≡ goto_of rest.now }
{
    match rest {
        [Token::Name(label)] => Some(Piece::Jump(Some(Next::Goto(*label)))),
        [
            Token::Sign(Sign::Open),
            Token::Word(word),
            Token::Sign(Sign::Close),
        ] => dispatch(*word, Some(Next::Dispatch { high: false })),
        [
            Token::Sign(Sign::Open),
            Token::Word(word),
            Token::Word(Word::Or),
            Token::Number(offset),
            Token::Sign(Sign::Close),
        ] => dispatch(*word, by_offset(*offset)),
        _ => None,
    }
}

fn test_of(word: Word) -> Option<Test>
    ensures { result ≡ test_of word }
{
    match word {
        Word::N => Some(Test::N),
        Word::Z => Some(Test::Z),
        _ => None,
    }
}

fn if_of(rest: &[Token]) -> Option<Piece>
    ensures { result ≡ if_of rest.now }
{
    match rest {
        [
            Token::Sign(Sign::Open),
            Token::Word(word),
            Token::Sign(Sign::Close),
            Token::Word(Word::Goto),
            Token::Name(label),
        ] => Some(Piece::If(test_of(*word)?, *label)),
        _ => None,
    }
}

fn else_of(rest: &[Token]) -> Option<Piece>
    ensures { result ≡ else_of rest.now }
{
    match rest {
        [Token::Word(Word::Goto), Token::Name(label)] => Some(Piece::Else(*label)),
        _ => None,
    }
}

/// What these tokens between two semicolons spell.
pub(crate) fn piece_of(machine: Machine, tokens: &[Token]) -> Option<Piece>
    ensures { result ≡ piece_of machine tokens.now }
{
    match tokens {
        [] => Some(Piece::Nothing),
        [Token::Word(Word::Rd)] => Some(Piece::Mem(Mem::Read)),
        [Token::Word(Word::Wr)] => Some(Piece::Mem(Mem::Write)),
        [Token::Word(Word::Fetch)] => Some(Piece::Fetch),
        [Token::Word(Word::Goto), rest @ ..] => goto_of(rest),
        [Token::Word(Word::If), rest @ ..] => if_of(rest),
        [Token::Word(Word::Else), rest @ ..] => else_of(rest),
        _ => Some(Piece::Assign(chain_of(machine, tokens)?)),
    }
}
