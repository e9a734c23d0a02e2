//! The tree of a program. A function's position is its place in the text; a variable's is its place among the names
//! that its function declares, the parameters first.

use crate::items::Items;

#[derive(Clone, Copy, Debug, PartialEq, Eq)]
pub enum Operator {
    Plus,
    Minus,
    And,
    Or,
}

#[cycle(expr)]
#[derive(Drop)]
pub enum Term {
    Number(u32),
    Variable(u32),
    Call {
        function: u32,
        arguments: Items<Expr>,
    },
    /// A byte of the console.
    Get,
    /// An expression in parentheses.
    Group(Box<Expr>),
}

/// An operator with the term after it.
#[cycle(expr)]
#[derive(Drop)]
pub struct Step {
    pub operator: Operator,
    pub term: Term,
}

/// An expression, which is evaluated from left to right.
#[cycle(expr)]
#[derive(Drop)]
pub struct Expr {
    pub first: Term,
    pub rest: Items<Step>,
}

#[derive(Drop)]
pub enum Cond {
    Equal { left: Expr, right: Expr },
    Different { left: Expr, right: Expr },
    Less { left: Expr, right: Expr },
}

#[cycle(block)]
#[derive(Drop)]
pub struct Block {
    pub statements: Items<Statement>,
}

/// `line` is the line of the word `if` or `while`.
#[cycle(block)]
#[derive(Drop)]
pub enum Statement {
    Var {
        place: u32,
        value: Expr,
    },
    Assign {
        place: u32,
        value: Expr,
    },
    Call {
        function: u32,
        arguments: Items<Expr>,
    },
    If {
        line: u32,
        cond: Cond,
        taken: Block,
        otherwise: Option<Block>,
    },
    While {
        line: u32,
        cond: Cond,
        body: Block,
    },
    Return(Expr),
    Put(Expr),
    Halt,
}

#[derive(Drop)]
pub struct Function {
    pub parameters: u32,
    pub body: Block,
}
