//! Each node of a written program's tree from its parts, with the plain tree that it stands for.

ghost use Rattle.std.specs.Prelude.{◌≡◌, ◌∷◌, [], IfErr, IfOk, map};
ghost use Rattle.tiny_draft.specs.Tree as tree;
ghost use Rattle.tiny_draft.specs.Tree.{arguments_of, statements_of, steps_of};
ghost use Rattle.tiny_draft.specs.Branches.{else_tree};
ghost use Rattle.tiny_draft.specs.View.{block_tree, cond_tree, expr_tree, function_tree, statement_tree, step_tree, term_tree};

use crate::tree::{
    Block, Branches, Call, Comparison, Cond, Expr, Function, Statement, Step, Sum, Term, Word,
};
use std::alloc::{AllocError, Global};
use tiny_tree::{Items, Operator};

impl Word {
    pub fn new(name: u32, line: u32) -> Word
        ensures { result ≡ record { name = name; line = line } }
    {
        Word { name, line }
    }
}

impl Term {
    pub fn number(value: u32) -> Term
        ensures { term_tree result ≡ tree.Number value }
    {
        Term::Number(value)
    }

    pub fn variable(word: Word) -> Term
        ensures { term_tree result ≡ tree.Variable word }
    {
        Term::Variable {
            name: word.name,
            line: word.line,
        }
    }

    pub fn call(alloc: Global, word: Word, arguments: Items<Expr>) -> Result<Term, AllocError>
        ensures { IfOk result (λ t. term_tree t ≡ tree.Called word (arguments_of (map expr_tree arguments))) }
    {
        let call = Call {
            name: word.name,
            line: word.line,
            arguments,
        };
        Ok(Term::Call(Box::new(alloc, call)?))
    }

    pub fn get() -> Term
        ensures { term_tree result ≡ tree.Get }
    {
        Term::Get
    }

    pub fn group(alloc: Global, inner: Expr) -> Result<Term, AllocError>
        ensures { IfOk result (λ t. term_tree t ≡ tree.Group (expr_tree inner)) }
    {
        Ok(Term::Group(Box::new(alloc, inner)?))
    }
}

impl Step {
    pub fn new(operator: Operator, term: Term) -> Step
        ensures { step_tree result ≡ (operator, term_tree term) }
    {
        Step { operator, term }
    }
}

impl Expr {
    pub fn new(alloc: Global, first: Term, rest: Items<Step>) -> Result<Expr, AllocError>
        ensures { IfOk result (λ e. expr_tree e ≡ tree.Sum (term_tree first) (steps_of (map step_tree rest))) }
    {
        if rest.items().is_empty() {
            return Ok(Expr::Alone(first));
        }
        Ok(Expr::Sum(Box::new(alloc, Sum { first, rest })?))
    }
}

impl Cond {
    pub fn new(comparison: Comparison, left: Expr, right: Expr) -> Cond
        ensures { cond_tree result ≡ tree.Compare comparison (expr_tree left) (expr_tree right) }
    {
        Cond {
            comparison,
            left,
            right,
        }
    }
}

/// The one argument, or the arguments as they are.
fn only(arguments: Items<Expr>) -> Result<Expr, Items<Expr>>
    ensures one { IfOk result (λ e. arguments ≡ e ∷ []) }
    ensures others { IfErr result (λ es. es ≡ arguments) }
{
    let mut given = arguments.into_vec();
    if given.len() != 1 {
        return Err(Items::from_vec(given));
    }
    match given.pop() {
        Some(argument) => Ok(argument),
        None => Err(Items::from_vec(given)),
    }
}

impl Statement {
    pub fn var(word: Word, value: Expr) -> Statement
        ensures { statement_tree result ≡ tree.Var word (expr_tree value) }
    {
        Statement::Var {
            name: word.name,
            line: word.line,
            value,
        }
    }

    pub fn assign(word: Word, value: Expr) -> Statement
        ensures { statement_tree result ≡ tree.Assign word (expr_tree value) }
    {
        Statement::Assign {
            name: word.name,
            line: word.line,
            value,
        }
    }

    pub fn call(word: Word, arguments: Items<Expr>) -> Statement
        ensures { statement_tree result ≡ tree.Calls word (arguments_of (map expr_tree arguments)) }
    {
        match only(arguments) {
            Ok(argument) => Statement::CallWithOne {
                name: word.name,
                line: word.line,
                argument,
            },
            Err(arguments) => Statement::Call {
                name: word.name,
                line: word.line,
                arguments,
            },
        }
    }

    pub fn choice(
        alloc: Global,
        line: u32,
        cond: Cond,
        taken: Block,
        otherwise: Option<Block>,
    ) -> Result<Statement, AllocError>
        ensures { IfOk result (λ s. statement_tree s ≡ tree.If line (cond_tree cond) (block_tree taken) (else_tree otherwise)) }
    {
        let cond = Box::new(alloc, cond)?;
        let branches = Box::new(alloc, Branches { taken, otherwise })?;
        Ok(Statement::If {
            line,
            cond,
            branches,
        })
    }

    pub fn repeat(
        alloc: Global,
        line: u32,
        cond: Cond,
        body: Block,
    ) -> Result<Statement, AllocError>
        ensures { IfOk result (λ s. statement_tree s ≡ tree.While line (cond_tree cond) (block_tree body)) }
    {
        let cond = Box::new(alloc, cond)?;
        Ok(Statement::While { line, cond, body })
    }

    pub fn give_back(line: u32, value: Expr) -> Statement
        ensures { statement_tree result ≡ tree.Return line (expr_tree value) }
    {
        Statement::Return { line, value }
    }

    pub fn put(value: Expr) -> Statement
        ensures { statement_tree result ≡ tree.Put (expr_tree value) }
    {
        Statement::Put(value)
    }

    pub fn halt() -> Statement
        ensures { statement_tree result ≡ tree.Halt }
    {
        Statement::Halt
    }
}

impl Block {
    pub fn new(statements: Items<Statement>) -> Block
        ensures { block_tree result ≡ statements_of (map statement_tree statements) }
    {
        Block { statements }
    }
}

impl Function {
    pub fn new(name: Word, parameters: Items<Word>, body: Block) -> Function
        ensures { function_tree result ≡ record { name = name; parameters = parameters; body = block_tree body } }
    {
        Function {
            name,
            parameters,
            body,
        }
    }
}
