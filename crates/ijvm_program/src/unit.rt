//! The units of a program.

ghost use Rattle.std.specs.Prelude.{◌≡◌, option_copied};
ghost use Rattle.ijvm_program.specs.Unit.{unit_of};

use crate::line::{CodeLine, Label};
use mic_base::Name;
use std::marker::Model;

/// Main or a method: its names, its code lines in order, and the labels of those.
#[derive(Drop)]
pub struct Unit {
    name: Option<Name>,
    parameters: Vec<Name>,
    locals: Vec<Name>,
    lines: Vec<CodeLine>,
    labels: Vec<Label>,
}

impl Model for Unit {
    ghost use Rattle.ijvm_program.specs.Unit.{UnitView};

    ghost Value = { UnitView };

    ghost view = { λ u. record { name = u.name; parameters = u.parameters.items; locals = u.locals.items; lines = u.lines.items; labels = u.labels.items } };
}

impl Unit {
    /// A unit of these parts; main has no name.
    pub fn new(
        name: Option<Name>,
        parameters: Vec<Name>,
        locals: Vec<Name>,
        lines: Vec<CodeLine>,
        labels: Vec<Label>,
    ) -> Unit
        ensures { result ≡ unit_of name parameters.items locals.items lines.items labels.items }
    {
        Unit {
            name,
            parameters,
            locals,
            lines,
            labels,
        }
    }

    /// The name of a method.
    pub fn name(&self) -> Option<&Name>
        ensures { option_copied result ≡ self.now.name }
    {
        self.name.as_ref()
    }

    pub fn parameters(&self) -> &[Name]
        ensures { result.now ≡ self.now.parameters }
    {
        &self.parameters
    }

    pub fn locals(&self) -> &[Name]
        ensures { result.now ≡ self.now.locals }
    {
        &self.locals
    }

    /// The lines with an instruction.
    pub fn lines(&self) -> &[CodeLine]
        ensures { result.now ≡ self.now.lines }
    {
        &self.lines
    }

    pub fn labels(&self) -> &[Label]
        ensures { result.now ≡ self.now.labels }
    {
        &self.labels
    }
}
