//! Each node of a resolved program's tree from its parts, with the plain tree that it stands for.

ghost use Rattle.std.specs.Prelude.{◌≡◌, IfOk, map, option_map};
ghost use Rattle.tiny_tree.specs.Tree as tree;
ghost use Rattle.tiny_tree.specs.Tree.{If, arguments_of, else_of, statements_of, steps_of};
ghost use Rattle.tiny_tree.specs.View.{block_tree, cond_tree, expr_tree, function_tree, statement_tree, step_tree, term_tree};

use crate::items::Items;
use crate::tree::{Block, Cond, Expr, Function, Operator, Statement, Step, Term};
use std::alloc::{AllocError, Global};

impl Term {
    pub fn number(value: u32) -> Term
        ensures { term_tree result ≡ tree.Number value }
    {
        Term::Number(value)
    }

    pub fn variable(place: u32) -> Term
        ensures { term_tree result ≡ tree.Variable place }
    {
        Term::Variable(place)
    }

    pub fn call(function: u32, arguments: Items<Expr>) -> Term
        ensures { term_tree result ≡ tree.Called function (arguments_of (map expr_tree arguments)) }
    {
        Term::Call {
            function,
            arguments,
        }
    }

    pub fn get() -> Term
        ensures { term_tree result ≡ tree.Get }
    {
        Term::Get
    }

    pub fn group(alloc: Global, inner: Expr) -> Result<Term, AllocError>
        ensures { IfOk result (λ t. term_tree t ≡ tree.Group (expr_tree inner)) }
    {
        Ok(Term::Group(Box::new(alloc, inner)?))
    }
}

impl Step {
    pub fn new(operator: Operator, term: Term) -> Step
        ensures { step_tree result ≡ (operator, term_tree term) }
    {
        Step { operator, term }
    }
}

impl Expr {
    pub fn new(first: Term, rest: Items<Step>) -> Expr
        ensures { expr_tree result ≡ tree.Sum (term_tree first) (steps_of (map step_tree rest)) }
    {
        Expr { first, rest }
    }
}

impl Cond {
    pub fn equal(left: Expr, right: Expr) -> Cond
        ensures { cond_tree result ≡ tree.Equal (expr_tree left) (expr_tree right) }
    {
        Cond::Equal { left, right }
    }

    pub fn different(left: Expr, right: Expr) -> Cond
        ensures { cond_tree result ≡ tree.Different (expr_tree left) (expr_tree right) }
    {
        Cond::Different { left, right }
    }

    pub fn less(left: Expr, right: Expr) -> Cond
        ensures { cond_tree result ≡ tree.Less (expr_tree left) (expr_tree right) }
    {
        Cond::Less { left, right }
    }
}

impl Statement {
    pub fn var(place: u32, value: Expr) -> Statement
        ensures { statement_tree result ≡ tree.Var place (expr_tree value) }
    {
        Statement::Var { place, value }
    }

    pub fn assign(place: u32, value: Expr) -> Statement
        ensures { statement_tree result ≡ tree.Assign place (expr_tree value) }
    {
        Statement::Assign { place, value }
    }

    pub fn call(function: u32, arguments: Items<Expr>) -> Statement
        ensures { statement_tree result ≡ tree.Calls function (arguments_of (map expr_tree arguments)) }
    {
        Statement::Call {
            function,
            arguments,
        }
    }

    pub fn choice(line: u32, cond: Cond, taken: Block, other: Option<Block>) -> Statement
        ensures { statement_tree result ≡ If line (cond_tree cond) (block_tree taken) (else_of (option_map block_tree other)) }
    {
        Statement::If {
            line,
            cond,
            taken,
            otherwise: other,
        }
    }

    pub fn repeat(line: u32, cond: Cond, body: Block) -> Statement
        ensures { statement_tree result ≡ tree.While line (cond_tree cond) (block_tree body) }
    {
        Statement::While { line, cond, body }
    }

    pub fn give_back(value: Expr) -> Statement
        ensures { statement_tree result ≡ tree.Return (expr_tree value) }
    {
        Statement::Return(value)
    }

    pub fn put(value: Expr) -> Statement
        ensures { statement_tree result ≡ tree.Put (expr_tree value) }
    {
        Statement::Put(value)
    }

    pub fn halt() -> Statement
        ensures { statement_tree result ≡ tree.Halt }
    {
        Statement::Halt
    }
}

impl Block {
    pub fn new(statements: Items<Statement>) -> Block
        ensures { block_tree result ≡ statements_of (map statement_tree statements) }
    {
        Block { statements }
    }
}

impl Function {
    pub fn new(parameters: u32, body: Block) -> Function
        ensures { function_tree result ≡ record { parameters = parameters; body = block_tree body } }
    {
        Function { parameters, body }
    }
}
