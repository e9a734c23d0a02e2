//! From a text to its program.

ghost use Rattle.std.specs.Prelude.{◌≡◌, ◌<◌, ◌^◌, IfOk, IfErr, false, length, map};
ghost use Rattle.tiny_draft.specs.Prelude.{function_tree};
ghost use Rattle.tiny_names.specs.Prelude.{program_tree};
ghost use Rattle.tiny_tree.specs.Prelude.{IsNamed};
ghost use Rattle.tiny_parser.specs.Errors.{is_memory};
ghost use Rattle.tiny_parser.specs.Texts.{IsRefused, IsUnwritten, IsWritten, Spells};

use crate::error::{TinyError, grammar_error, names_error};
use crate::laws::programs_are_named;
use std::alloc::Global;
use tiny_draft::Function;
use tiny_grammar::parse;
use tiny_names::{TinyProgram, resolve};
use tiny_tokens::{last_line, tokens};
use tiny_tree::Items;

/// The functions as they are written.
fn written(alloc: Global, text: &[u8]) -> Result<Items<Function>, TinyError>
    requires { length text.now < 2 ^ 30 }
    ensures ok { IfOk result (λ fs. IsWritten text.now (map function_tree fs)) }
    ensures err { IfErr result (λ e. is_memory e ≡ false → IsUnwritten text.now e) }
{
    let Ok(tokens) = tokens(alloc, text) else {
        return Err(TinyError::OutOfMemory);
    };
    match parse(alloc, &tokens) {
        Ok(functions) => Ok(functions),
        Err(refusal) => Err(grammar_error(last_line(text), refusal)),
    }
}

/// The program that a text spells, or why it spells none.
pub fn parse_tiny(alloc: Global, text: &[u8]) -> Result<TinyProgram, TinyError>
    requires { length text.now < 2 ^ 30 }
    ensures ok { IfOk result (λ p. Spells text.now (program_tree p)) }
    ensures named { IfOk result (λ p. IsNamed (program_tree p)) }
    ensures err { IfErr result (λ e. is_memory e ≡ false → IsRefused text.now e) }
{
    let program = resolved(alloc, text)?;
    programs_are_named();
    Ok(program)
}

fn resolved(alloc: Global, text: &[u8]) -> Result<TinyProgram, TinyError>
    requires { length text.now < 2 ^ 30 }
    ensures ok { IfOk result (λ p. Spells text.now (program_tree p)) }
    ensures err { IfErr result (λ e. is_memory e ≡ false → IsRefused text.now e) }
{
    let functions = written(alloc, text)?;
    match resolve(alloc, functions) {
        Ok(program) => Ok(program),
        Err(unresolved) => Err(names_error(unresolved)),
    }
}
