//! What a line says, from its form.
ghost use Rattle.std.specs.Prelude.{◌≡◌};
ghost use Rattle.mal_line.specs.Lines.{content_of, next_by_jump, part_of, parts_of};

use crate::line::Form;
use crate::next::Next;
use crate::tree::{Jump, Tree};
use mic_base::Name;
use micro_word::Part;

/// A statement without its label.
#[derive(Clone, Copy)]
pub struct Parts {
    pub part: Part,
    pub next: Next<Name>,
}

/// What a line says.
#[derive(Clone, Copy)]
pub enum Content {
    Nothing,
    /// `.label NAME NUMBER`
    Fix { label: Name, address: i64 },
    /// `.default PARTS`
    Fallback(Parts),
    Statement { label: Option<Name>, parts: Parts },
}

fn part_of(tree: Tree) -> Option<Part>
    ensures { result ≡ part_of tree }
{
    let part = match tree.assignment {
        None => Part::IDLE,
        Some(assignment) => assignment.operation?.part(assignment.dests),
    };
    Some(Part {
        mem: tree.mem,
        fetch: tree.fetch,
        ..part
    })
}

fn next_by_jump(jump: Option<Jump>) -> Option<Next<Name>>
    ensures { result ≡ next_by_jump jump }
{
    match jump {
        None => Some(Next::Following),
        Some(jump) => jump,
    }
}

fn parts_of(tree: Tree) -> Option<Parts>
    ensures { result ≡ parts_of tree }
{
    let next = next_by_jump(tree.next)?;
    let part = part_of(tree)?;
    Some(Parts { part, next })
}

/// What a line of this form says; None where an expression or an OR has no coding.
pub(crate) fn content_of(form: Form) -> Option<Content>
    ensures { result ≡ content_of form }
{
    match form {
        Form::Nothing => Some(Content::Nothing),
        Form::Fix(label, address) => Some(Content::Fix { label, address }),
        Form::Fallback(tree) => Some(Content::Fallback(parts_of(tree)?)),
        Form::Statement(label, tree) => Some(Content::Statement {
            label,
            parts: parts_of(tree)?,
        }),
    }
}
