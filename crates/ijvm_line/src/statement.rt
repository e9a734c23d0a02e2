//! Instructions as their tokens spell them.

ghost use Rattle.std.specs.Prelude.{◌≡◌};
ghost use Rattle.ijvm_line.specs.Reading.{alone, call, constant, increment, jump_to, kind_at, local, operand_of, push, statement_of, wide};

use crate::mnemonic::{Access, Kind};
use ijvm_instr::Instr;
use ijvm_program::Jump;
use ijvm_tokens::Token;
use mic_base::Name;

/// An operand that is a name or an index.
#[derive(Clone, Copy)]
pub enum Operand {
    Name(Name),
    /// Its value, where it reads as a number.
    Number(Option<i64>),
}

/// An instruction as it is spelled, its numbers not yet looked at.
#[derive(Clone, Copy)]
pub enum Statement {
    Plain(Instr),
    Push(Option<i64>),
    Constant(Operand),
    Local {
        access: Access,
        /// WIDE stands before it.
        wide: bool,
        local: Operand,
    },
    Increment {
        /// WIDE stands before it.
        wide: bool,
        local: Operand,
        by: Option<i64>,
    },
    Jump(Jump, Name),
    Call(Name),
}

fn kind_at(token: Token) -> Option<Kind>
    ensures { result ≡ kind_at token }
{
    match token {
        Token::Name(name) => Kind::find(name.text().as_bytes()),
        Token::Sign(_) | Token::Number(_) => None,
    }
}

fn operand_of(operands: &[Token]) -> Option<Operand>
    ensures { result ≡ operand_of operands.now }
{
    match operands {
        [Token::Name(name)] => Some(Operand::Name(*name)),
        [Token::Number(value)] => Some(Operand::Number(*value)),
        _ => None,
    }
}

fn alone(instr: Instr, operands: &[Token]) -> Option<Statement>
    ensures { result ≡ alone instr operands.now }
{
    match operands {
        [] => Some(Statement::Plain(instr)),
        _ => None,
    }
}

fn push(operands: &[Token]) -> Option<Statement>
    ensures { result ≡ push operands.now }
{
    match operands {
        [Token::Number(value)] => Some(Statement::Push(*value)),
        _ => None,
    }
}

fn constant(operands: &[Token]) -> Option<Statement>
    ensures { result ≡ constant operands.now }
{
    Some(Statement::Constant(operand_of(operands)?))
}

fn local(access: Access, wide: bool, operands: &[Token]) -> Option<Statement>
    ensures { result ≡ local access wide operands.now }
{
    let local = operand_of(operands)?;
    Some(Statement::Local {
        access,
        wide,
        local,
    })
}

fn increment(wide: bool, operands: &[Token]) -> Option<Statement>
    ensures { result ≡ increment wide operands.now }
{
    match operands {
        [Token::Name(name), Token::Number(by)] => Some(Statement::Increment {
            wide,
            local: Operand::Name(*name),
            by: *by,
        }),
        [Token::Number(index), Token::Number(by)] => Some(Statement::Increment {
            wide,
            local: Operand::Number(*index),
            by: *by,
        }),
        _ => None,
    }
}

fn jump_to(jump: Jump, operands: &[Token]) -> Option<Statement>
    ensures { result ≡ jump_to jump operands.now }
{
    match operands {
        [Token::Name(label)] => Some(Statement::Jump(jump, *label)),
        _ => None,
    }
}

fn call(operands: &[Token]) -> Option<Statement>
    ensures { result ≡ call operands.now }
{
    match operands {
        [Token::Name(method)] => Some(Statement::Call(*method)),
        _ => None,
    }
}

fn wide(tokens: &[Token]) -> Option<Statement>
    ensures { result ≡ wide tokens.now }
{
    let (first, operands) = tokens.split_first()?;
    match kind_at(*first) {
        Some(Kind::Local(access)) => local(access, true, operands),
        Some(Kind::Increment) => increment(true, operands),
        _ => None,
    }
}

/// The instruction that these tokens spell.
pub(crate) fn statement_of(tokens: &[Token]) -> Option<Statement>
    ensures { result ≡ statement_of tokens.now }
{
    let (first, operands) = tokens.split_first()?;
    match kind_at(*first)? {
        Kind::Alone(instr) => alone(instr, operands),
        Kind::Push => push(operands),
        Kind::Constant => constant(operands),
        Kind::Local(access) => local(access, false, operands),
        Kind::Increment => increment(false, operands),
        Kind::Jump(jump) => jump_to(jump, operands),
        Kind::Call => call(operands),
        Kind::Wide => wide(operands),
    }
}
