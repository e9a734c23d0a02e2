//! The reader of a source, line by line.

ghost use Rattle.std.specs.Prelude.{◌≡◌, Ok, OnOk, IfOk, IfErr, None, []};
ghost use Rattle.source_text.specs.Prelude.{FailsBy, StaysBy};
ghost use Rattle.ijvm_asm.specs.Drafts.{begun, is_memory};
ghost use Rattle.ijvm_asm.specs.Adding.{gather};
ghost use Rattle.ijvm_asm.specs.Refusals.{at_line};

use crate::draft::{Draft, MOST};
use crate::error::AsmError;
use crate::laws::reads_texts;
use ijvm_line::{Content, Instruction, LineFault, Mark, Place, line_from, parameters_of};
use ijvm_tokens::{Token, tokens_of};
use mic_base::Name;
use source_text::{LineLanguage, NamedList, NotAdded, Reader, TokenError};
use std::alloc::Global;
use std::marker::Model;
use std::mem;

/// Reads the lines of a source, and keeps what they say.
#[derive(Drop)]
pub(crate) struct SourceReader {
    pub(crate) alloc: Global,
    /// Where the next line stands.
    pub(crate) place: Place,
    /// The line that began the open section.
    pub(crate) section: u32,
    /// The line that began the open locals.
    pub(crate) inner: u32,
    /// The open unit may still declare its locals.
    may_declare: bool,
    seen_constants: bool,
    seen_main: bool,
    pub(crate) constants: NamedList<Name>,
    /// For each constant its value.
    pub(crate) values: Vec<u32>,
    pub(crate) methods: NamedList<Name>,
    /// The open unit.
    unit: Draft,
    pub(crate) main: Option<Draft>,
    /// The methods that are ended.
    pub(crate) units: Vec<Draft>,
}

impl Model for SourceReader {
    ghost use Rattle.ijvm_asm.specs.Source.{Source};

    ghost Value = { Source };

    ghost view = { λ r. record {
      place = r.place;
      section = r.section;
      inner = r.inner;
      may_declare = r.may_declare;
      seen_constants = r.seen_constants;
      seen_main = r.seen_main;
      constants = r.constants;
      values = r.values.items;
      methods = r.methods;
      unit = r.unit;
      main = r.main;
      units = r.units.items;
    } };
}

/// The names as a list, unless one comes twice.
fn gather(alloc: Global, names: &[Name]) -> Result<Option<NamedList<Name>>, AsmError>
    ensures ok { IfOk result (λ list. list ≡ gather [] names.now) }
    ensures err { IfErr result (λ e. e ≡ AsmError.OutOfMemory) }
{
    let mut list = NamedList::new(alloc);
    let mut rest = names;
    while let Some((first, after)) = rest.split_first() {
        match list.add(*first, u32::MAX) {
            Ok(()) => rest = after,
            Err(NotAdded::Again(_)) => return Ok(None),
            Err(_) => return Err(AsmError::OutOfMemory),
        }
    }
    Ok(Some(list))
}

fn at_line(fault: LineFault, line: u32) -> AsmError
    ensures { result ≡ at_line line fault }
{
    match fault {
        LineFault::BadLine => AsmError::BadLine(line),
        LineFault::BadNumber => AsmError::BadNumber(line),
        LineFault::OutOfRange => AsmError::OutOfRange(line),
    }
}

impl SourceReader {
    ghost use Rattle.ijvm_asm.specs.Adding.{add_code, add_constant, add_content, add_mark, add_method, add_tokens, begin_constants, begin_locals, begin_main, end_main, end_method, is_declared, on_local};
    ghost use Rattle.ijvm_asm.specs.Source.{empty};
    ghost use Rattle.ijvm_line.specs.Prelude.{line_from};

    pub(crate) fn new(alloc: Global) -> SourceReader
        ensures { result ≡ empty }
    {
        SourceReader {
            alloc,
            place: Place::Outside,
            section: 0,
            inner: 0,
            may_declare: false,
            seen_constants: false,
            seen_main: false,
            constants: NamedList::new(alloc),
            values: Vec::new(alloc),
            methods: NamedList::new(alloc),
            unit: Draft::new(alloc, None, NamedList::new(alloc)),
            main: None,
            units: Vec::new(alloc),
        }
    }

    /// Constants and methods share their names.
    fn is_declared(&self, name: &Name) -> bool
        ensures { result ≡ is_declared self.now name.now }
    {
        self.constants.find(name).is_some() || self.methods.find(name).is_some()
    }

    fn add_constant(&mut self, line: u32, name: Name, value: u32) -> Result<(), AsmError>
        ensures ok { OnOk result (add_constant line self.old name value ≡ Ok self.new) }
        ensures err { IfErr result (λ e. FailsBy is_memory e (add_constant line self.old name value)) }
        ensures left { IfErr result (λ e. StaysBy is_memory e self.old self.new) }
    {
        if self.is_declared(&name) {
            return Err(AsmError::DuplicateName(line));
        }
        self.constants
            .add(name, u32::MAX)
            .map_err(|_| AsmError::OutOfMemory)?;
        self.values.push(value)?;
        Ok(())
    }

    fn add_local(&mut self, line: u32, name: Name) -> Result<(), AsmError>
        ensures ok { OnOk result (on_local line self.old name ≡ Ok self.new) }
        ensures err { IfErr result (λ e. FailsBy is_memory e (on_local line self.old name)) }
        ensures left { IfErr result (λ e. StaysBy is_memory e self.old self.new) }
    {
        self.unit.add_local(line, name)?;
        Ok(())
    }

    fn add_code(
        &mut self,
        line: u32,
        label: Option<Name>,
        instruction: Option<Instruction>,
    ) -> Result<(), AsmError>
        ensures ok { OnOk result (add_code line self.old label instruction ≡ Ok self.new) }
        ensures err { IfErr result (λ e. FailsBy is_memory e (add_code line self.old label instruction)) }
        ensures left { IfErr result (λ e. StaysBy is_memory e self.old self.new) }
    {
        self.unit.add_label(line, label)?;
        self.unit.add_instruction(line, instruction)?;
        self.may_declare = false;
        Ok(())
    }

    fn add_method(&mut self, line: u32, name: Name, parameters: &[Name]) -> Result<(), AsmError>
        ensures ok { OnOk result (add_method line self.old name parameters.now ≡ Ok self.new) }
        ensures err { IfErr result (λ e. FailsBy is_memory e (add_method line self.old name parameters.now)) }
        ensures left { IfErr result (λ e. StaysBy is_memory e self.old self.new) }
    {
        if self.is_declared(&name) {
            return Err(AsmError::DuplicateName(line));
        }
        let Some(names) = gather(self.alloc, parameters)? else {
            return Err(AsmError::DuplicateName(line));
        };
        if names.len() > MOST {
            return Err(AsmError::TooManyNames(line));
        }
        self.methods
            .add(name, u32::MAX)
            .map_err(|_| AsmError::OutOfMemory)?;
        self.unit = Draft::new(self.alloc, Some(name), names);
        self.place = Place::Code;
        self.section = line;
        self.may_declare = true;
        Ok(())
    }

    fn begin_constants(&mut self, line: u32) -> Result<(), AsmError>
        ensures ok { OnOk result (begin_constants line self.old ≡ Ok self.new) }
        ensures err { IfErr result (λ e. FailsBy is_memory e (begin_constants line self.old)) }
        ensures left { IfErr result (λ e. StaysBy is_memory e self.old self.new) }
    {
        if self.seen_constants {
            return Err(AsmError::BadLine(line));
        }
        self.seen_constants = true;
        self.place = Place::Constants;
        self.section = line;
        Ok(())
    }

    fn begin_main(&mut self, line: u32) -> Result<(), AsmError>
        ensures ok { OnOk result (begin_main line self.old ≡ Ok self.new) }
        ensures err { IfErr result (λ e. FailsBy is_memory e (begin_main line self.old)) }
        ensures left { IfErr result (λ e. StaysBy is_memory e self.old self.new) }
    {
        if self.seen_main {
            return Err(AsmError::BadLine(line));
        }
        self.seen_main = true;
        self.unit = Draft::new(self.alloc, None, NamedList::new(self.alloc));
        self.place = Place::Code;
        self.section = line;
        self.may_declare = true;
        Ok(())
    }

    fn begin_locals(&mut self, line: u32) -> Result<(), AsmError>
        ensures ok { OnOk result (begin_locals line self.old ≡ Ok self.new) }
        ensures err { IfErr result (λ e. FailsBy is_memory e (begin_locals line self.old)) }
        ensures left { IfErr result (λ e. StaysBy is_memory e self.old self.new) }
    {
        if !self.may_declare {
            return Err(AsmError::BadLine(line));
        }
        self.may_declare = false;
        self.place = Place::Locals;
        self.inner = line;
        Ok(())
    }

    /// The open unit, with an empty one in its place.
    fn taken(&mut self) -> Draft
        ensures unit { result ≡ self.old.unit }
        ensures rest { self.new ≡ record self.old { unit = begun None []; place = Place.Outside } }
    {
        self.place = Place::Outside;
        let next = Draft::new(self.alloc, None, NamedList::new(self.alloc));
        mem::replace(&mut self.unit, next)
    }

    fn end_main(&mut self, line: u32) -> Result<(), AsmError>
        ensures ok { OnOk result (end_main line self.old ≡ Ok self.new) }
        ensures err { IfErr result (λ e. FailsBy is_memory e (end_main line self.old)) }
        ensures left { IfErr result (λ e. StaysBy is_memory e self.old self.new) }
    {
        if self.unit.name.is_some() || self.unit.pending {
            return Err(AsmError::BadLine(line));
        }
        let unit = self.taken();
        self.main = Some(unit);
        Ok(())
    }

    fn end_method(&mut self, line: u32) -> Result<(), AsmError>
        ensures ok { OnOk result (end_method line self.old ≡ Ok self.new) }
        ensures err { IfErr result (λ e. FailsBy is_memory e (end_method line self.old)) }
        ensures left { IfErr result (λ e. StaysBy is_memory e self.old self.new) }
    {
        if self.unit.name.is_none() || self.unit.pending {
            return Err(AsmError::BadLine(line));
        }
        let unit = self.taken();
        self.units.push(unit)?;
        Ok(())
    }

    fn add_mark(&mut self, line: u32, mark: Mark) -> Result<(), AsmError>
        ensures ok { OnOk result (add_mark line self.old mark ≡ Ok self.new) }
        ensures err { IfErr result (λ e. FailsBy is_memory e (add_mark line self.old mark)) }
        ensures left { IfErr result (λ e. StaysBy is_memory e self.old self.new) }
    {
        match mark {
            Mark::BeginConstants => self.begin_constants(line),
            Mark::EndConstants => {
                self.place = Place::Outside;
                Ok(())
            }
            Mark::BeginMain => self.begin_main(line),
            Mark::EndMain => self.end_main(line),
            Mark::EndMethod => self.end_method(line),
            Mark::BeginLocals => self.begin_locals(line),
            Mark::EndLocals => {
                self.place = Place::Code;
                Ok(())
            }
        }
    }

    fn add(&mut self, number: u32, tokens: &[Token], content: Content) -> Result<(), AsmError>
        ensures ok { OnOk result (add_content number self.old tokens.now content ≡ Ok self.new) }
        ensures err { IfErr result (λ e. FailsBy is_memory e (add_content number self.old tokens.now content)) }
        ensures left { IfErr result (λ e. StaysBy is_memory e self.old self.new) }
    {
        match content {
            Content::Nothing => Ok(()),
            Content::Mark(mark) => self.add_mark(number, mark),
            Content::Method(name) => {
                let parameters = parameters_of(self.alloc, tokens)?;
                self.add_method(number, name, &parameters)
            }
            Content::Constant(name, value) => self.add_constant(number, name, value),
            Content::Local(name) => self.add_local(number, name),
            Content::Code(label, instruction) => self.add_code(number, label, instruction),
        }
    }

    fn read(&mut self, number: u32, tokens: &[Token]) -> Result<(), AsmError>
        ensures ok { OnOk result (add_tokens number self.old tokens.now ≡ Ok self.new) }
        ensures err { IfErr result (λ e. FailsBy is_memory e (add_tokens number self.old tokens.now)) }
        ensures left { IfErr result (λ e. StaysBy is_memory e self.old self.new) }
    {
        match line_from(self.place, tokens) {
            Ok(content) => self.add(number, tokens, content),
            Err(fault) => Err(at_line(fault, number)),
        }
    }
}

impl Reader for SourceReader {
    type Refusal = AsmError;

    ghost use Rattle.ijvm_asm.specs.Source.{Source};
    ghost use Rattle.ijvm_asm.specs.Adding.{step};

    ghost State = { Source };

    ghost state = { λ s. s };

    ghost step = { step };

    ghost is_memory = { is_memory };

    fn line(&mut self, number: u32, line: &[u8]) -> Result<(), AsmError> {
        reads_texts();
        match tokens_of(self.alloc, line) {
            Ok(tokens) => self.read(number, &tokens),
            Err(TokenError::BadToken) => Err(AsmError::BadToken(number)),
            Err(TokenError::OutOfMemory) => Err(AsmError::OutOfMemory),
        }
    }
}

impl LineLanguage for SourceReader {
    ghost use Rattle.std.specs.Prelude.{⊤};
    ghost use Rattle.ijvm_program.specs.Prelude.{ProgramView};
    ghost use Rattle.ijvm_tokens.specs.declared.token.Token.{Token};
    ghost use Rattle.ijvm_line.specs.declared.line.LineFault.{LineFault};
    ghost use Rattle.ijvm_asm.specs.declared.error.AsmError.{AsmError};
    ghost use Rattle.ijvm_asm.specs.Said.{Said};
    ghost use Rattle.ijvm_asm.specs.Source.{empty, Source};
    ghost use Rattle.ijvm_asm.specs.Adding.{parser};
    ghost use Rattle.ijvm_asm.specs.Text.{grammar};

    ghost Setting = { ⊤ };

    ghost Token = { Token };

    ghost Fault = { LineFault };

    ghost Content = { Said };

    ghost Program = { ProgramView };

    ghost Refusal = { AsmError };

    ghost State = { Source };

    ghost grammar = { λ _. grammar };

    ghost parser = { parser };

    ghost start = { λ _. empty };
}
