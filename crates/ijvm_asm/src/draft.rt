//! Main or a method, as its lines so far make it.

ghost use Rattle.std.specs.Prelude.{◌≡◌, ◌≤◌, length, Ok, Err, OnOk, IfErr};
ghost use Rattle.ijvm_asm.specs.Common.{FailsBy, StaysBy, most_names};
ghost use Rattle.ijvm_asm.specs.declared.error.AsmError.{AsmError};
ghost use Rattle.ijvm_asm.specs.Drafts.{begun, is_memory};

use crate::error::AsmError;
use ijvm_line::Instruction;
use mic_base::Name;
use source_text::{NamedList, NotAdded};
use std::alloc::Global;
use std::marker::Model;

/// A line of code whose names are not yet looked up.
#[derive(Clone, Copy)]
pub struct DraftLine {
    pub line: u32,
    pub instruction: Instruction,
}

/// Main or a method, as its lines so far make it.
#[derive(Drop)]
pub(crate) struct Draft {
    /// The name of a method.
    pub(crate) name: Option<Name>,
    /// The parameters, then the locals.
    pub(crate) names: NamedList<Name>,
    /// The number of parameters.
    pub(crate) parameters: u32,
    pub(crate) labels: NamedList<Name>,
    /// For each label, how many code lines stand before it.
    pub(crate) label_positions: Vec<u32>,
    pub(crate) lines: Vec<DraftLine>,
    /// A label has no instruction yet.
    pub(crate) pending: bool,
}

/// The most parameters and locals of a unit.
pub(crate) const MOST: u32 = 65_534;

impl Model for Draft {
    ghost use Rattle.std.specs.Prelude.{◌≤◌, length};
    ghost use Rattle.ijvm_program.specs.Prelude.{most_names};
    ghost use Rattle.ijvm_asm.specs.Drafts.{DraftView};

    ghost Value = { DraftView };

    ghost view = { λ d. record {
      name = d.name;
      names = d.names;
      parameters = d.parameters;
      labels = d.labels;
      label_positions = d.label_positions.items;
      lines = d.lines.items;
      pending = d.pending;
    } };

    ghost invariant = { λ d. length d.names ≤ most_names };
}

impl Draft {
    ghost use Rattle.ijvm_asm.specs.Adding.{add_instruction, add_label, add_local};

    pub(crate) fn new(alloc: Global, name: Option<Name>, parameters: NamedList<Name>) -> Draft
        requires { length parameters ≤ most_names }
        ensures { result ≡ begun name parameters }
    {
        let count = parameters.len();
        Draft {
            name,
            names: parameters,
            parameters: count,
            labels: NamedList::new(alloc),
            label_positions: Vec::new(alloc),
            lines: Vec::new(alloc),
            pending: false,
        }
    }

    /// Declares a local on this line.
    pub(crate) fn add_local(&mut self, line: u32, name: Name) -> Result<(), AsmError>
        ensures ok { OnOk result (add_local line self.old name ≡ Ok self.new) }
        ensures err { IfErr result (λ e. FailsBy is_memory e (add_local line self.old name)) }
        ensures left { IfErr result (λ e. StaysBy is_memory e self.old self.new) }
        ensures refused { (e : AsmError) → add_local line self.old name ≡ Err e → result ≡ Err e }
    {
        match self.names.add(name, MOST) {
            Ok(()) => Ok(()),
            Err(NotAdded::Again(_)) => Err(AsmError::DuplicateName(line)),
            Err(NotAdded::Full) => Err(AsmError::TooManyNames(line)),
            Err(NotAdded::OutOfMemory) => Err(AsmError::OutOfMemory),
        }
    }

    /// Declares a label on this line.
    pub(crate) fn add_label(&mut self, line: u32, label: Option<Name>) -> Result<(), AsmError>
        ensures ok { OnOk result (add_label line self.old label ≡ Ok self.new) }
        ensures err { IfErr result (λ e. FailsBy is_memory e (add_label line self.old label)) }
        ensures left { IfErr result (λ e. StaysBy is_memory e self.old self.new) }
        ensures refused { (e : AsmError) → add_label line self.old label ≡ Err e → result ≡ Err e }
    {
        let Some(label) = label else {
            return Ok(());
        };
        match self.labels.add(label, u32::MAX) {
            Ok(()) => {}
            Err(NotAdded::Again(_)) => return Err(AsmError::DuplicateName(line)),
            Err(_) => return Err(AsmError::OutOfMemory),
        }
        let Ok(at) = u32::try_from(self.lines.len()) else {
            return Err(AsmError::OutOfMemory);
        };
        self.label_positions.push(at)?;
        self.pending = true;
        Ok(())
    }

    pub(crate) fn add_instruction(
        &mut self,
        line: u32,
        instruction: Option<Instruction>,
    ) -> Result<(), AsmError>
        ensures ok { OnOk result (self.new ≡ add_instruction line self.old instruction) }
        ensures err { IfErr result (λ e. e ≡ AsmError.OutOfMemory) }
    {
        let Some(instruction) = instruction else {
            return Ok(());
        };
        self.lines.push(DraftLine { line, instruction })?;
        self.pending = false;
        Ok(())
    }
}
