//! The coding of an expression, looked up by its tokens.
ghost use Rattle.std.specs.Prelude.{◌≡◌};
ghost use Rattle.micro_word.specs.Prelude.{is_h};
ghost use Rattle.mal_line.specs.Lookup.{checked, coding_of, from_one_source, joined, operand_of, operation_in, paired, prefixed, shift_of, single, source_of, sum_and_one, work};

use crate::chain::Tail;
use crate::operation::Operation;
use mal_tokens::{Sign, Token, Word};
use micro_word::{AluOp, BusSource, Machine, Shift};

/// What stands for a value in an expression.
#[derive(Clone, Copy)]
enum Operand {
    Source(BusSource),
    Zero,
    One,
    Other,
}

fn source_of(word: Word) -> Option<BusSource>
    ensures { result ≡ source_of word }
{
    match word {
        Word::Mdr => Some(BusSource::Mdr),
        Word::Pc => Some(BusSource::Pc),
        Word::Mbr => Some(BusSource::Mbr),
        Word::Mbru => Some(BusSource::Mbru),
        Word::Sp => Some(BusSource::Sp),
        Word::Lv => Some(BusSource::Lv),
        Word::Cpp => Some(BusSource::Cpp),
        Word::Tos => Some(BusSource::Tos),
        Word::Opc => Some(BusSource::Opc),
        Word::Mbr1 => Some(BusSource::Mbr1),
        Word::Mbr1u => Some(BusSource::Mbr1u),
        Word::Mbr2 => Some(BusSource::Mbr2),
        Word::Mbr2u => Some(BusSource::Mbr2u),
        Word::H => Some(BusSource::H),
        _ => None,
    }
}

fn operand_of(token: Token) -> Operand
    ensures { result ≡ operand_of token }
{
    match token {
        Token::Word(word) => match source_of(word) {
            Some(source) => Operand::Source(source),
            None => Operand::Other,
        },
        Token::Number(0) => Operand::Zero,
        Token::Number(1) => Operand::One,
        _ => Operand::Other,
    }
}

fn work(op: AluOp, a: Option<BusSource>, b: Option<BusSource>) -> Operation
    ensures { result ≡ work op a b }
{
    Operation {
        op,
        a,
        b,
        shift: Shift::None,
    }
}

fn is_h(source: BusSource) -> bool
    ensures { result ≡ is_h source }
{
    matches!(source, BusSource::H)
}

/// A single source stands on the A side where it is H of Mic-1, else on the B side.
fn from_one_source(machine: Machine, op_a: AluOp, op_b: AluOp, source: BusSource) -> Operation
    ensures { result ≡ from_one_source machine op_a op_b source }
{
    if matches!(machine, Machine::Mic1) && is_h(source) {
        work(op_a, Some(source), None)
    } else {
        work(op_b, None, Some(source))
    }
}

/// Of two sources, the first stands on the A side; on Mic-1, the one that is H.
fn paired(machine: Machine, op: AluOp, x: BusSource, y: BusSource) -> Operation
    ensures { result ≡ paired machine op x y }
{
    if matches!(machine, Machine::Mic1) && !is_h(x) {
        work(op, Some(y), Some(x))
    } else {
        work(op, Some(x), Some(y))
    }
}

fn single(machine: Machine, x: Operand) -> Option<Operation>
    ensures { result ≡ single machine x }
{
    match x {
        Operand::Source(x) => Some(from_one_source(machine, AluOp::A, AluOp::B, x)),
        Operand::Zero => Some(work(AluOp::Zero, None, None)),
        Operand::One => Some(work(AluOp::One, None, None)),
        Operand::Other => None,
    }
}

fn prefixed(machine: Machine, prefix: Token, x: Operand) -> Option<Operation>
    ensures { result ≡ prefixed machine prefix x }
{
    match (prefix, x) {
        (Token::Word(Word::Not), Operand::Source(x)) => {
            Some(from_one_source(machine, AluOp::NotA, AluOp::NotB, x))
        }
        (Token::Sign(Sign::Minus), Operand::Source(x)) => Some(work(AluOp::NegA, Some(x), None)),
        (Token::Sign(Sign::Minus), Operand::One) => Some(work(AluOp::MinusOne, None, None)),
        _ => None,
    }
}

fn joined(machine: Machine, x: Operand, between: Token, y: Operand) -> Option<Operation>
    ensures { result ≡ joined machine x between y }
{
    match (x, between, y) {
        (Operand::Source(x), Token::Sign(Sign::Plus), Operand::Source(y)) => {
            Some(paired(machine, AluOp::Sum, x, y))
        }
        (Operand::Source(x), Token::Sign(Sign::Plus), Operand::One) => {
            Some(from_one_source(machine, AluOp::IncA, AluOp::IncB, x))
        }
        (Operand::One, Token::Sign(Sign::Plus), Operand::Source(y)) => {
            Some(from_one_source(machine, AluOp::IncA, AluOp::IncB, y))
        }
        (Operand::Source(x), Token::Sign(Sign::Minus), Operand::Source(y)) => {
            Some(work(AluOp::Sub, Some(y), Some(x)))
        }
        (Operand::Source(x), Token::Sign(Sign::Minus), Operand::One) => {
            Some(work(AluOp::DecB, None, Some(x)))
        }
        (Operand::Source(x), Token::Word(Word::And), Operand::Source(y)) => {
            Some(paired(machine, AluOp::And, x, y))
        }
        (Operand::Source(x), Token::Word(Word::Or), Operand::Source(y)) => {
            Some(paired(machine, AluOp::Or, x, y))
        }
        _ => None,
    }
}

fn sum_and_one(
    machine: Machine,
    x: Operand,
    y: Operand,
    one: Operand,
    plus: Token,
    then: Token,
) -> Option<Operation>
    ensures { result ≡ sum_and_one machine x y one plus then }
{
    match (x, y, one, plus, then) {
        (
            Operand::Source(x),
            Operand::Source(y),
            Operand::One,
            Token::Sign(Sign::Plus),
            Token::Sign(Sign::Plus),
        ) => Some(paired(machine, AluOp::SumInc, x, y)),
        _ => None,
    }
}

/// The operation that has this form, on any machine that does it.
fn operation_in(machine: Machine, body: &[Token]) -> Option<Operation>
    ensures { result ≡ operation_in machine body.now }
{
    match body {
        [x] => single(machine, operand_of(*x)),
        [prefix, x] => prefixed(machine, *prefix, operand_of(*x)),
        [x, between, y] => joined(machine, operand_of(*x), *between, operand_of(*y)),
        [x, plus, y, then, one] => sum_and_one(
            machine,
            operand_of(*x),
            operand_of(*y),
            operand_of(*one),
            *plus,
            *then,
        ),
        _ => None,
    }
}

fn checked(machine: Machine, operation: Operation) -> Option<Operation>
    ensures { result ≡ checked machine operation }
{
    if operation.part(0).valid(machine) {
        Some(operation)
    } else {
        None
    }
}

fn shift_of(tail: Tail) -> Option<Shift>
    ensures { result ≡ shift_of tail }
{
    match tail {
        Tail::Nothing => Some(Shift::None),
        Tail::Left(8) => Some(Shift::Left8),
        Tail::Right(1) => Some(Shift::Right1),
        _ => None,
    }
}

/// The coding of an expression and its tail.
pub(crate) fn coding_of(machine: Machine, body: &[Token], tail: Tail) -> Option<Operation>
    ensures { result ≡ coding_of machine body.now tail }
{
    let shift = shift_of(tail)?;
    let operation = checked(machine, operation_in(machine, body)?)?;
    Some(Operation { shift, ..operation })
}
