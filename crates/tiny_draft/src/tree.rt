//! The tree of a text, with the names as they are written.

use tiny_tree::{Items, Operator};

/// A name where it stands, by its number among the names of the text.
#[derive(Clone, Copy)]
pub struct Word {
    pub name: u32,
    pub line: u32,
}

#[cycle(expr)]
#[derive(Drop)]
pub enum Term {
    Number(u32),
    Variable { name: u32, line: u32 },
    Call(Box<Call>),
    Get,
    Group(Box<Expr>),
}

/// A call that is a term.
#[cycle(expr)]
#[derive(Drop)]
pub struct Call {
    pub name: u32,
    pub line: u32,
    pub arguments: Items<Expr>,
}

#[cycle(expr)]
#[derive(Drop)]
pub struct Step {
    pub operator: Operator,
    pub term: Term,
}

/// Most expressions are one term, and they are small.
#[cycle(expr)]
#[derive(Drop)]
pub enum Expr {
    Alone(Term),
    Sum(Box<Sum>),
}

/// An expression with operators.
#[cycle(expr)]
#[derive(Drop)]
pub struct Sum {
    pub first: Term,
    pub rest: Items<Step>,
}

#[derive(Clone, Copy, PartialEq, Eq)]
pub enum Comparison {
    Equal,
    Different,
    Less,
}

#[derive(Drop)]
pub struct Cond {
    pub comparison: Comparison,
    pub left: Expr,
    pub right: Expr,
}

#[cycle(block)]
#[derive(Drop)]
pub struct Block {
    pub statements: Items<Statement>,
}

/// The blocks of an `if`.
#[cycle(block)]
#[derive(Drop)]
pub struct Branches {
    pub taken: Block,
    pub otherwise: Option<Block>,
}

/// The parts of an `if` are boxed, so that a statement is small.
#[cycle(block)]
#[derive(Drop)]
pub enum Statement {
    Var {
        name: u32,
        line: u32,
        value: Expr,
    },
    Assign {
        name: u32,
        line: u32,
        value: Expr,
    },
    Call {
        name: u32,
        line: u32,
        arguments: Items<Expr>,
    },
    /// A call with one argument, which needs no list.
    CallWithOne {
        name: u32,
        line: u32,
        argument: Expr,
    },
    If {
        line: u32,
        cond: Box<Cond>,
        branches: Box<Branches>,
    },
    While {
        line: u32,
        cond: Box<Cond>,
        body: Block,
    },
    Return {
        line: u32,
        value: Expr,
    },
    Put(Expr),
    Halt,
}

#[derive(Drop)]
pub struct Function {
    pub name: Word,
    pub parameters: Items<Word>,
    pub body: Block,
}
