//! Reads the statement and the block at the front of the tokens, by the grammar of Tiny.

ghost use Rattle.std.specs.Prelude.{◌∷◌, [], IfOk, IfErr};
ghost use Rattle.tiny_draft.specs.Prelude.{else_tree, block_tree};
ghost use Rattle.tiny_draft.specs.declared.token.Sign.TheVariants.{If, While};
ghost use Rattle.tiny_grammar.specs.Grammar.{spell_block, spell_else};
ghost use Rattle.tiny_grammar.specs.Machine.{ABlock, AfterName, AStatement, MaybeElse};
ghost use Rattle.tiny_grammar.specs.Parts.{Lacks, MayRead, ReadsStatement, assigned, spell_assigned};
ghost use Rattle.tiny_grammar.specs.Reads.{HoldsNoBlock, Reads, ReadsAll, Says, StopsBy};

use crate::expr::{arguments, cond, value};
use crate::refusal::Refusal;
use crate::token::{after_sign, expect, first_line, name};
use std::alloc::Global;
use tiny_draft::{Block, Expr, Sign, Statement, Token, Word};
use tiny_tree::Items;

/// The value that is assigned, with the sign before it.
fn assigned(alloc: Global, levels: u32, tokens: &[Token]) -> Result<(Expr, &[Token]), Refusal>
    ensures ok { IfOk result (λ p. ReadsAll levels assigned tokens.now (spell_assigned p.0) p.1.now) }
    ensures err { IfErr result (λ e. StopsBy levels assigned tokens.now e) }
{
    let after = expect(tokens, Sign::Assign)?;
    let (given, rest) = value(alloc, levels, after)?;
    Ok((given, rest))
}

/// The statement that begins with this name, from after the name on.
fn named(
    alloc: Global,
    levels: u32,
    word: Word,
    tokens: &[Token],
) -> Result<(Statement, &[Token]), Refusal>
    ensures ok { IfOk result (λ p. Says levels word p.0 tokens.now p.1.now) }
    ensures err { IfErr result (λ e. StopsBy levels (AfterName ∷ []) tokens.now e) }
{
    if let Some(inside) = after_sign(tokens, Sign::Open) {
        if levels == 0 {
            return Err(Refusal::TooDeep(first_line(tokens)));
        }
        let (given, outside) = arguments(alloc, levels - 1, inside)?;
        let call_end = expect(outside, Sign::Semicolon)?;
        return Ok((Statement::call(word, given), call_end));
    }
    let (later, assign_end) = assigned(alloc, levels, tokens)?;
    Ok((Statement::assign(word, later), assign_end))
}

/// The statement at the front, which holds no block.
fn simple(alloc: Global, levels: u32, tokens: &[Token]) -> Result<(Statement, &[Token]), Refusal>
    ensures ok { IfOk result (λ p. ReadsStatement levels tokens.now p.0 p.1.now) }
    ensures err { IfErr result (λ e. HoldsNoBlock tokens.now → StopsBy levels (AStatement ∷ []) tokens.now e) }
{
    if let Some(after_put) = after_sign(tokens, Sign::Put) {
        let (shown, put_end) = value(alloc, levels, after_put)?;
        return Ok((Statement::put(shown), put_end));
    }
    if let Some(after_return) = after_sign(tokens, Sign::Return) {
        let line = first_line(tokens);
        let (given, return_end) = value(alloc, levels, after_return)?;
        return Ok((Statement::give_back(line, given), return_end));
    }
    if let Some(after_halt) = after_sign(tokens, Sign::Halt) {
        let halt_end = expect(after_halt, Sign::Semicolon)?;
        return Ok((Statement::halt(), halt_end));
    }
    if let Some(after_var) = after_sign(tokens, Sign::Var) {
        let (new, after_new) = name(after_var)?;
        let (first, var_end) = assigned(alloc, levels, after_new)?;
        return Ok((Statement::var(new, first), var_end));
    }
    let (old, after_old) = name(tokens)?;
    let found = named(alloc, levels, old, after_old)?;
    Ok(found)
}

/// The statement at the front.
#[cycle(block)]
fn statement(alloc: Global, levels: u32, tokens: &[Token]) -> Result<(Statement, &[Token]), Refusal>
    ensures ok { IfOk result (λ p. ReadsStatement levels tokens.now p.0 p.1.now) }
    ensures err { IfErr result (λ e. StopsBy levels (AStatement ∷ []) tokens.now e) }
{
    if let Some(looped) = repeated(alloc, levels, tokens)? {
        return Ok(looped);
    }
    if let Some(chosen) = choice(alloc, levels, tokens)? {
        return Ok(chosen);
    }
    let plain = simple(alloc, levels, tokens)?;
    Ok(plain)
}

/// The loop at the front, where `while` comes first.
#[cycle(block)]
fn repeated(
    alloc: Global,
    levels: u32,
    tokens: &[Token],
) -> Result<Option<(Statement, &[Token])>, Refusal>
    ensures ok { IfOk result (MayRead (Lacks While tokens.now) (ReadsStatement levels tokens.now)) }
    ensures err { IfErr result (λ e. StopsBy levels (AStatement ∷ []) tokens.now e) }
{
    let Some(inside) = after_sign(tokens, Sign::While) else {
        return Ok(None);
    };
    let line = first_line(tokens);
    let (test, after) = cond(alloc, levels, inside)?;
    let (body, outside) = block(alloc, levels, after)?;
    let found = Statement::repeat(alloc, line, test, body)?;
    Ok(Some((found, outside)))
}

/// The choice at the front, where `if` comes first.
#[cycle(block)]
fn choice(
    alloc: Global,
    levels: u32,
    tokens: &[Token],
) -> Result<Option<(Statement, &[Token])>, Refusal>
    ensures ok { IfOk result (MayRead (Lacks If tokens.now) (ReadsStatement levels tokens.now)) }
    ensures err { IfErr result (λ e. StopsBy levels (AStatement ∷ []) tokens.now e) }
{
    let Some(inside) = after_sign(tokens, Sign::If) else {
        return Ok(None);
    };
    let line = first_line(tokens);
    let (test, after_test) = cond(alloc, levels, inside)?;
    let (taken, after_taken) = block(alloc, levels, after_test)?;
    let (other, outside) = otherwise(alloc, levels, after_taken)?;
    let found = Statement::choice(alloc, line, test, taken, other)?;
    Ok(Some((found, outside)))
}

/// The block after `else`, where that comes first.
#[cycle(block)]
fn otherwise(
    alloc: Global,
    levels: u32,
    tokens: &[Token],
) -> Result<(Option<Block>, &[Token]), Refusal>
    ensures ok { IfOk result (λ p. Reads levels MaybeElse tokens.now (spell_else (else_tree p.0)) p.1.now) }
    ensures err { IfErr result (λ e. StopsBy levels (MaybeElse ∷ []) tokens.now e) }
{
    let Some(inside) = after_sign(tokens, Sign::Else) else {
        return Ok((None, tokens));
    };
    let (other, outside) = block(alloc, levels, inside)?;
    Ok((Some(other), outside))
}

/// The block at the front.
#[cycle(block)]
pub(crate) fn block(
    alloc: Global,
    levels: u32,
    tokens: &[Token],
) -> Result<(Block, &[Token]), Refusal>
    ensures ok { IfOk result (λ p. Reads levels ABlock tokens.now (spell_block (block_tree p.0)) p.1.now) }
    ensures err { IfErr result (λ e. StopsBy levels (ABlock ∷ []) tokens.now e) }
{
    let inside = expect(tokens, Sign::Begin)?;
    if levels == 0 {
        return Err(Refusal::TooDeep(first_line(tokens)));
    }
    let mut found = Items::new(alloc);
    let mut rest = inside;
    loop {
        if let Some(outside) = after_sign(rest, Sign::End) {
            return Ok((Block::new(found), outside));
        }
        let (one, after) = statement(alloc, levels - 1, rest)?;
        found.push(one)?;
        rest = after;
    }
}
