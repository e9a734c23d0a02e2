//! The tokens of a statement's parts.

ghost use Rattle.std.specs.Prelude.{◌≡◌, ◌≤◌, ◌+◌, length, option_to_list};
ghost use Rattle.mal_tokens.specs.declared.token.Token.{Token};
ghost use Rattle.mal_line.specs.Prelude.{test_word};
ghost use Rattle.mal_print.specs.Printed.{width};
ghost use Rattle.mal_print.specs.StatementText.{beside, byte_word, fetches, leads, memory, parts};

use crate::assignment::assignment;
use crate::token_list::{Tokens, add_part};
use mal_line::Next;
use mal_tokens::{Sign, Token, Word};
use micro_word::{Machine, Mem, Part, Test};

const OPEN: Token = Token::Sign(Sign::Open);

const CLOSE: Token = Token::Sign(Sign::Close);

const GOTO: Token = Token::Word(Word::Goto);

fn memory(mem: Mem) -> Option<Token>
    ensures { option_to_list result ≡ memory mem }
{
    match mem {
        Mem::None => None,
        Mem::Read => Some(Token::Word(Word::Rd)),
        Mem::Write => Some(Token::Word(Word::Wr)),
    }
}

fn fetches(fetch: bool) -> Option<Token>
    ensures { option_to_list result ≡ fetches fetch }
{
    fetch.then_some(Token::Word(Word::Fetch))
}

fn byte_word(machine: Machine) -> Token
    ensures { result ≡ Token.Word (byte_word machine) }
{
    match machine {
        Machine::Mic1 => Token::Word(Word::Mbr),
        Machine::Mic2 => Token::Word(Word::Mbr1),
    }
}

fn test_word(test: Test) -> Token
    ensures { result ≡ Token.Word (test_word test) }
{
    match test {
        Test::N => Token::Word(Word::N),
        Test::Z => Token::Word(Word::Z),
    }
}

/// Appends a part of one word, where it is there.
fn add_word(tokens: &mut Tokens, word: Option<Token>)
    requires { length tokens.old.items + 2 ≤ 48 }
    ensures all { tokens.new.items ≡ beside tokens.old.items (option_to_list word) }
    ensures len { length tokens.new.items ≤ length tokens.old.items + 2 }
{
    if let Some(word) = word {
        add_part(tokens, &[word]);
    }
}

/// Appends where the statement goes next.
fn add_next(machine: Machine, next: &Next<Token>, tokens: &mut Tokens)
    requires { length tokens.old.items ≤ 29 }
    ensures all { tokens.new.items ≡ beside tokens.old.items (leads machine next.now) }
    ensures len { length tokens.new.items ≤ 40 }
{
    match next {
        Next::Following => {}
        Next::Goto(to) => add_part(tokens, &[GOTO, *to]),
        Next::Dispatch { high: false } => {
            add_part(tokens, &[GOTO, OPEN, byte_word(machine), CLOSE]);
        }
        Next::Dispatch { high: true } => {
            let (or, offset) = (Token::Word(Word::Or), Token::Number(0x100));
            add_part(tokens, &[GOTO, OPEN, byte_word(machine), or, offset, CLOSE]);
        }
        Next::Branch { test, yes, no } => {
            let (semicolon, otherwise) = (Token::Sign(Sign::Semicolon), Token::Word(Word::Else));
            let condition = Token::Word(Word::If);
            add_part(
                tokens,
                &[
                    condition,
                    OPEN,
                    test_word(*test),
                    CLOSE,
                    GOTO,
                    *yes,
                    semicolon,
                    otherwise,
                    GOTO,
                    *no,
                ],
            );
        }
    }
}

/// The parts of a statement in canonical text: its assignment, rd or wr, fetch, and where it goes next.
#[tactic(auto, using(crate::proofs::Widths::parts_width))]
pub fn parts_of(machine: Machine, part: &Part, next: &Next<Token>) -> Tokens
    ensures all { result.items ≡ parts machine part.now next.now }
    ensures len { length result.items ≤ 40 }
    ensures width { width result.items ≤ 251 }
{
    let mut tokens = assignment(part, next);
    add_word(&mut tokens, memory(part.mem));
    add_word(&mut tokens, fetches(part.fetch));
    add_next(machine, next, &mut tokens);
    tokens
}
