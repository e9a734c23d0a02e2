//! What a line says, from its form.

ghost use Rattle.std.specs.Prelude.{◌≡◌};
ghost use Rattle.ijvm_line.specs.Lines.{code_content, constant_content, content_of};

use crate::form::Form;
use crate::instruction::{Instruction, instruction_of, word};
use crate::line::LineFault;
use crate::place::Mark;
use crate::statement::Statement;
use mic_base::Name;

/// What a line says.
#[derive(Clone, Copy)]
pub enum Content {
    Nothing,
    Mark(Mark),
    Method(Name),
    Constant(Name, u32),
    Local(Name),
    Code(Option<Name>, Option<Instruction>),
}

fn constant_content(name: Name, value: Option<i64>) -> Result<Content, LineFault>
    ensures { result ≡ constant_content name value }
{
    Ok(Content::Constant(name, word(value)?))
}

fn code_content(label: Option<Name>, statement: Option<Statement>) -> Result<Content, LineFault>
    ensures { result ≡ code_content label statement }
{
    let Some(statement) = statement else {
        return Ok(Content::Code(label, None));
    };
    Ok(Content::Code(label, Some(instruction_of(statement)?)))
}

/// What a line of this form says, or the refusal of its first number with one.
pub(crate) fn content_of(form: Form) -> Result<Content, LineFault>
    ensures { result ≡ content_of form }
{
    match form {
        Form::Nothing => Ok(Content::Nothing),
        Form::Mark(mark) => Ok(Content::Mark(mark)),
        Form::Method(name) => Ok(Content::Method(name)),
        Form::Constant(name, value) => constant_content(name, value),
        Form::Local(name) => Ok(Content::Local(name)),
        Form::Code(label, statement) => code_content(label, statement),
    }
}
