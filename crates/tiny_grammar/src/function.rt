//! Reads the function at the front of the tokens: its parameters and its block.

ghost use Rattle.std.specs.Prelude.{◌≡◌, ◌+◌, ◌∷◌, [], ℕ, IfOk, IfErr};
ghost use Rattle.tiny_draft.specs.Prelude.{function_tree};
ghost use Rattle.tiny_grammar.specs.Grammar.{spell_parameters, spell_signature};
ghost use Rattle.tiny_grammar.specs.Machine.{Parameters, signature};
ghost use Rattle.tiny_grammar.specs.Reads.{Moves, ReadsAll, StopsBy};

use crate::block::block;
use crate::refusal::Refusal;
use crate::token::{after_sign, expect, name};
use std::alloc::Global;
use tiny_draft::{Function, Sign, Token, Word};
use tiny_tree::Items;

/// How many parentheses, calls and blocks may be open at once.
const LEVELS: u32 = 64;

/// The parameters after the opening parenthesis, and the tokens after the closing one.
fn parameters(alloc: Global, tokens: &[Token]) -> Result<(Items<Word>, &[Token]), Refusal>
    ensures ok { IfOk result (λ p. Moves 63 (Parameters ∷ []) tokens.now (spell_parameters p.0) 64 [] p.1.now) }
    ensures err { IfErr result (λ e. StopsBy 63 (Parameters ∷ []) tokens.now e) }
{
    let mut found = Items::new(alloc);
    if let Some(rest) = after_sign(tokens, Sign::Close) {
        return Ok((found, rest));
    }
    let mut rest = tokens;
    loop {
        let (parameter, after) = name(rest)?;
        found.push(parameter)?;
        if let Some(more) = after_sign(after, Sign::Comma) {
            rest = more;
            continue;
        }
        let rest = expect(after, Sign::Close)?;
        return Ok((found, rest));
    }
}

/// The function at the front, from after `fn` on.
pub(crate) fn function(alloc: Global, tokens: &[Token]) -> Result<(Function, &[Token]), Refusal>
    ensures ok { IfOk result (λ p. ReadsAll 64 signature tokens.now (spell_signature (function_tree p.0)) p.1.now) }
    ensures err { IfErr result (λ e. StopsBy 64 signature tokens.now e) }
{
    let (called, after_name) = name(tokens)?;
    let inside = expect(after_name, Sign::Open)?;
    let (taken, outside) = parameters(alloc, inside)?;
    let (body, last) = block(alloc, LEVELS, outside)?;
    Ok((Function::new(called, taken, body), last))
}
