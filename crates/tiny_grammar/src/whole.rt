//! The program that tokens spell.

ghost use Rattle.std.specs.Prelude.{◌≡◌, ℕ, List, IfOk, IfErr, OnOk, false, map};
ghost use Rattle.tiny_draft.specs.Tree as tree;
ghost use Rattle.tiny_draft.specs.Prelude.{function_tree};
ghost use Rattle.tiny_draft.specs.declared.token.Token.{Token};
ghost use Rattle.tiny_grammar.specs.declared.refusal.Refusal.{Refusal};
ghost use Rattle.tiny_grammar.specs.Grammar.{SpellsProgram};
ghost use Rattle.tiny_grammar.specs.Parts.{AreProgram};
ghost use Rattle.tiny_grammar.specs.Reads.{is_memory};
ghost use Rattle.tiny_grammar.specs.Refusals.{IsRefused, IsShallow};

use crate::function::function;
use crate::refusal::{Refusal, refused};
use crate::token::after_sign;
use std::alloc::Global;
use tiny_draft::{Function, Sign, Token};
use tiny_tree::Items;

/// The functions that the tokens spell, or the refusal of the first token that has one.
pub fn parse(alloc: Global, tokens: &[Token]) -> Result<Items<Function>, Refusal>
    ensures ok { IfOk result (λ fs. SpellsProgram tokens.now (map function_tree fs)) }
    ensures shallow { OnOk result (IsShallow 64 tokens.now) }
    ensures err { IfErr result (λ e. is_memory e ≡ false → IsRefused 64 tokens.now e) }
{
    let mut found = Items::new(alloc);
    let mut rest = tokens;
    while let Some(after_fn) = after_sign(rest, Sign::Fn) {
        let (one, after) = function(alloc, after_fn)?;
        found.push(one)?;
        rest = after;
    }
    if !rest.is_empty() {
        return Err(refused(rest));
    }
    Ok(found)
}

/// A law: tokens spell at most one program; where they spell one and open no level too many, they are not refused;
/// and they have at most one refusal.
pub fn tokens_have_one_reading()
    ensures one_program { (ts : List Token) (p q : List tree.Function) →
        SpellsProgram ts p → SpellsProgram ts q → p ≡ q }
    ensures not_both { (levels : ℕ) (ts : List Token) (e : Refusal) → AreProgram levels ts → IsRefused levels ts e → ⊥ }
    ensures one_refusal { (n : ℕ) (ts : List Token) (d e : Refusal) → IsRefused n ts d → IsRefused n ts e → d ≡ e }
{}
