//! Reads the expression and the condition at the front of the tokens.

ghost use Rattle.std.specs.Prelude.{[], ◌∷◌, ◌++◌, IfOk, IfErr};
ghost use Rattle.tiny_draft.specs.Prelude.{cond_tree, expr_tree};
ghost use Rattle.tiny_draft.specs.declared.token.Sign.TheVariants.{Open};
ghost use Rattle.tiny_grammar.specs.Grammar.{end, spell_cond, spell_expr};
ghost use Rattle.tiny_grammar.specs.Machine.{ACond, AnExpr, Arguments, ATerm, MaybeCall, value};
ghost use Rattle.tiny_grammar.specs.Parts.{Lacks, MayRead, ReadsArguments, ReadsCall, ReadsTerm};
ghost use Rattle.tiny_grammar.specs.Reads.{Reads, ReadsAll, Skips, StopsBy};

use crate::refusal::{Refusal, refused};
use crate::token::{after_sign, comparison, expect, first_line, name, number, operator};
use std::alloc::Global;
use tiny_draft::{Cond, Expr, Sign, Step, Term, Token};
use tiny_tree::Items;

/// The term at the front.
#[cycle(expr)]
fn term(alloc: Global, levels: u32, tokens: &[Token]) -> Result<(Term, &[Token]), Refusal>
    ensures ok { IfOk result (λ p. ReadsTerm levels tokens.now p.0 p.1.now) }
    ensures err { IfErr result (λ e. StopsBy levels (ATerm ∷ []) tokens.now e) }
{
    if let Some(found) = group(alloc, levels, tokens)? {
        return Ok(found);
    }
    if let Some(after_get) = after_sign(tokens, Sign::Get) {
        return Ok((Term::get(), after_get));
    }
    if let Some((value, after_number)) = number(tokens) {
        return Ok((Term::number(value), after_number));
    }
    let (word, after_name) = name(tokens)?;
    match call(alloc, levels, after_name)? {
        Some((arguments, last)) => {
            let called = Term::call(alloc, word, arguments)?;
            Ok((called, last))
        }
        None => Ok((Term::variable(word), after_name)),
    }
}

/// The expression in parentheses, where an opening one comes first.
#[cycle(expr)]
fn group(alloc: Global, levels: u32, tokens: &[Token]) -> Result<Option<(Term, &[Token])>, Refusal>
    ensures ok { IfOk result (MayRead (Lacks Open tokens.now) (ReadsTerm levels tokens.now)) }
    ensures err { IfErr result (λ e. StopsBy levels (ATerm ∷ []) tokens.now e) }
{
    let Some(inside) = after_sign(tokens, Sign::Open) else {
        return Ok(None);
    };
    if levels == 0 {
        return Err(Refusal::TooDeep(first_line(tokens)));
    }
    let (inner, after) = expr(alloc, levels - 1, inside)?;
    let outside = expect(after, Sign::Close)?;
    let term = Term::group(alloc, inner)?;
    Ok(Some((term, outside)))
}

/// The arguments of a call, where an opening parenthesis comes first.
#[cycle(expr)]
fn call(
    alloc: Global,
    levels: u32,
    tokens: &[Token],
) -> Result<Option<(Items<Expr>, &[Token])>, Refusal>
    ensures ok { IfOk result (MayRead (Skips levels MaybeCall tokens.now) (ReadsCall levels tokens.now)) }
    ensures err { IfErr result (λ e. StopsBy levels (MaybeCall ∷ []) tokens.now e) }
{
    let Some(rest) = after_sign(tokens, Sign::Open) else {
        return Ok(None);
    };
    if levels == 0 {
        return Err(Refusal::TooDeep(first_line(tokens)));
    }
    let found = arguments(alloc, levels - 1, rest)?;
    Ok(Some(found))
}

/// The arguments after an opening parenthesis, and the tokens after the closing one.
#[cycle(expr)]
pub(crate) fn arguments(
    alloc: Global,
    levels: u32,
    tokens: &[Token],
) -> Result<(Items<Expr>, &[Token]), Refusal>
    ensures ok { IfOk result (λ p. ReadsArguments levels tokens.now p.0 p.1.now) }
    ensures err { IfErr result (λ e. StopsBy levels (Arguments ∷ []) tokens.now e) }
{
    let mut found = Items::new(alloc);
    if let Some(rest) = after_sign(tokens, Sign::Close) {
        return Ok((found, rest));
    }
    let mut rest = tokens;
    loop {
        let (argument, after) = expr(alloc, levels, rest)?;
        found.push(argument)?;
        if let Some(more) = after_sign(after, Sign::Comma) {
            rest = more;
            continue;
        }
        let rest = expect(after, Sign::Close)?;
        return Ok((found, rest));
    }
}

/// The expression at the front.
#[cycle(expr)]
fn expr(alloc: Global, levels: u32, tokens: &[Token]) -> Result<(Expr, &[Token]), Refusal>
    ensures ok { IfOk result (λ p. Reads levels AnExpr tokens.now (spell_expr (expr_tree p.0)) p.1.now) }
    ensures err { IfErr result (λ e. StopsBy levels (AnExpr ∷ []) tokens.now e) }
{
    let (first, mut rest) = term(alloc, levels, tokens)?;
    let mut steps = Items::new(alloc);
    while let Some((operator, after)) = operator(rest) {
        let (term, after) = term(alloc, levels, after)?;
        steps.push(Step::new(operator, term))?;
        rest = after;
    }
    let whole = Expr::new(alloc, first, steps)?;
    Ok((whole, rest))
}

/// The condition at the front.
pub(crate) fn cond(
    alloc: Global,
    levels: u32,
    tokens: &[Token],
) -> Result<(Cond, &[Token]), Refusal>
    ensures ok { IfOk result (λ p. Reads levels ACond tokens.now (spell_cond (cond_tree p.0)) p.1.now) }
    ensures err { IfErr result (λ e. StopsBy levels (ACond ∷ []) tokens.now e) }
{
    let (left, after_left) = expr(alloc, levels, tokens)?;
    let Some((sign, after_comparison)) = comparison(after_left) else {
        return Err(refused(after_left));
    };
    let (right, last) = expr(alloc, levels, after_comparison)?;
    Ok((Cond::new(sign, left, right), last))
}

/// The expression at the front, with a semicolon after it.
pub(crate) fn value(
    alloc: Global,
    levels: u32,
    tokens: &[Token],
) -> Result<(Expr, &[Token]), Refusal>
    ensures ok { IfOk result (λ p. ReadsAll levels value tokens.now (spell_expr (expr_tree p.0) ++ end) p.1.now) }
    ensures err { IfErr result (λ e. StopsBy levels value tokens.now e) }
{
    let (given, after) = expr(alloc, levels, tokens)?;
    let rest = expect(after, Sign::Semicolon)?;
    Ok((given, rest))
}
