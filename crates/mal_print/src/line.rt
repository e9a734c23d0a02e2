//! The tokens of a line.

ghost use Rattle.std.specs.Prelude.{◌≡◌, ◌≤◌};
ghost use Rattle.mal_print.specs.Printed.{width};
ghost use Rattle.mal_print.specs.StatementText.{fallback, fix, or_semicolon, parts, statement};

use crate::parts::parts_of;
use crate::token_list::Tokens;
use mal_line::Next;
use mal_tokens::{Sign, Token};
use mic_base::Name;
use micro_word::{Machine, Part};

fn or_semicolon(mut tokens: Tokens) -> Tokens
    ensures { result.items ≡ or_semicolon tokens.items }
{
    if tokens.is_empty() {
        tokens.push(Token::Sign(Sign::Semicolon));
    }
    tokens
}

/// The parts of a statement, `;` where it has none.
#[tactic(auto, using(crate::proofs::Widths::lone_width))]
pub fn lone(machine: Machine, part: &Part, next: &Next<Token>) -> Tokens
    ensures all { result.items ≡ or_semicolon (parts machine part.now next.now) }
    ensures width { width result.items ≤ 256 }
{
    or_semicolon(parts_of(machine, part, next))
}

/// The line of a statement: its label and its parts.
pub fn statement(machine: Machine, label: Option<Name>, part: &Part, next: &Next<Token>) -> Tokens
    ensures all { result.items ≡ statement machine label part.now next.now }
    ensures width { width result.items ≤ 321 }
{
    match label {
        None => lone(machine, part, next),
        Some(label) => {
            let mut tokens = parts_of(machine, part, next);
            tokens.insert(0, Token::Name(label));
            tokens
        }
    }
}

/// The line of the statement that unused words hold.
pub fn fallback(machine: Machine, part: &Part, next: &Next<Token>) -> Tokens
    ensures all { result.items ≡ fallback machine part.now next.now }
    ensures width { width result.items ≤ 265 }
{
    let mut tokens = parts_of(machine, part, next);
    tokens.insert(0, Token::Sign(Sign::Default));
    tokens
}

/// The line that fixes a label's address.
pub fn fix(label: Name, address: u16) -> [Token; 3]
    ensures all { result ≡ fix label address }
    ensures width { width result ≤ 93 }
{
    [
        Token::Sign(Sign::Label),
        Token::Name(label),
        Token::Number(i64::from(address)),
    ]
}
