//! The lines of a source, kept as drafts.

ghost use Rattle.std.specs.Prelude.{◌≡◌, ◌<◌, Ok, Err, OnOk, OnErr, IfErr, is_some};
ghost use Rattle.source_text.specs.Prelude.{FailsBy};
ghost use Rattle.mal_parser.specs.declared.error.MalError.TheVariants.{OutOfMemory};
ghost use Rattle.mal_parser.specs.Labels.{address_of};
ghost use Rattle.mal_parser.specs.Text.{at_line, is_memory};

use crate::error::MalError;
use crate::laws::{reads_lines, reads_texts};
use mal_line::{Content, LineFault, Next, Parts, line_from};
use mal_tokens::{Token, tokens_of};
use mic_base::Name;
use micro_word::Machine;
use source_text::{LineLanguage, Named, NamedList, NotAdded, Reader, TokenError};
use std::alloc::Global;
use std::marker::Model;

/// A statement whose targets are still labels.
#[derive(Clone, Copy)]
pub struct Draft {
    pub label: Option<Name>,
    pub line: u32,
    pub parts: Parts,
}

impl Named for Draft {
    ghost name = { λ d. d.label };

    fn name(&self) -> Option<Name> {
        self.label
    }
}

/// A `.label` line.
#[derive(Clone, Copy)]
pub struct Fix {
    pub label: Name,
    pub line: u32,
    pub address: u16,
}

impl Named for Fix {
    ghost use Rattle.std.specs.Prelude.{Some};

    ghost name = { λ f. Some f.label };

    fn name(&self) -> Option<Name> {
        Some(self.label)
    }
}

fn address_of(number: i64) -> Option<u16>
    ensures { result ≡ address_of number }
{
    if 0 <= number && number < 512 {
        Some(number as u16)
    } else {
        None
    }
}

/// Reads the lines of a source, and keeps what they say.
#[derive(Drop)]
pub(crate) struct SourceReader {
    pub(crate) alloc: Global,
    pub(crate) machine: Machine,
    pub(crate) statements: NamedList<Draft>,
    pub(crate) fixes: NamedList<Fix>,
    pub(crate) fallback: Option<Draft>,
}

impl Model for SourceReader {
    ghost use Rattle.mal_parser.specs.Reading.{Sketch};

    ghost Value = { Sketch };

    ghost view = { λ r. record { machine = r.machine; statements = r.statements; fixes = r.fixes; fallback = r.fallback } };
}

impl SourceReader {
    ghost use Rattle.mal_parser.specs.Reading.{add_content, add_fallback, add_fix, add_statement, add_tokens, empty};
    ghost use Rattle.mal_line.specs.declared.content.Content.{Content};

    pub fn new(alloc: Global, machine: Machine) -> SourceReader
        ensures { result ≡ empty machine }
    {
        SourceReader {
            alloc,
            machine,
            statements: NamedList::new(alloc),
            fixes: NamedList::new(alloc),
            fallback: None,
        }
    }

    fn add_fix(&mut self, line: u32, label: Name, address: i64) -> Result<(), MalError>
        ensures ok { OnOk result (add_fix line self.old label (address_of address) ≡ Ok self.new) }
        ensures err { IfErr result (λ e. FailsBy is_memory e (add_fix line self.old label (address_of address))) }
        ensures left { OnErr result (self.new ≡ self.old) }
    {
        let Some(address) = address_of(address) else {
            return Err(MalError::BadFix(line));
        };
        let fix = Fix {
            label,
            line,
            address,
        };
        match self.fixes.add(fix, u32::MAX) {
            Ok(()) => Ok(()),
            Err(NotAdded::Again(_)) => Err(MalError::BadFix(line)),
            Err(_) => Err(MalError::OutOfMemory),
        }
    }

    fn add_fallback(&mut self, line: u32, parts: Parts) -> Result<(), MalError>
        ensures ok { OnOk result (add_fallback line self.old parts ≡ Ok self.new) }
        ensures err { IfErr result (λ e. FailsBy is_memory e (add_fallback line self.old parts)) }
        ensures left { OnErr result (self.new ≡ self.old) }
    {
        if self.fallback.is_some() {
            return Err(MalError::BadFix(line));
        }
        self.fallback = Some(Draft {
            label: None,
            line,
            parts,
        });
        Ok(())
    }

    fn add_statement(
        &mut self,
        line: u32,
        label: Option<Name>,
        parts: Parts,
    ) -> Result<(), MalError>
        ensures ok { OnOk result (add_statement line self.old label parts ≡ Ok self.new) }
        ensures err { IfErr result (λ e. FailsBy is_memory e (add_statement line self.old label parts)) }
        ensures left { OnErr result (self.new ≡ self.old) }
    {
        let next: Next<Name> = parts.next;
        let draft = Draft {
            label,
            line,
            parts: Parts { next, ..parts },
        };
        match self.statements.add(draft, 512) {
            Ok(()) => Ok(()),
            Err(NotAdded::Again(_)) => Err(MalError::DuplicateLabel(line)),
            Err(NotAdded::Full) => Err(MalError::TooMany(line)),
            Err(NotAdded::OutOfMemory) => Err(MalError::OutOfMemory),
        }
    }

    fn add(&mut self, line: u32, content: Content) -> Result<(), MalError>
        ensures ok { OnOk result (add_content line self.old content ≡ Ok self.new) }
        ensures err { IfErr result (λ e. FailsBy is_memory e (add_content line self.old content)) }
        ensures left { OnErr result (self.new ≡ self.old) }
    {
        match content {
            Content::Nothing => Ok(()),
            Content::Fix { label, address } => self.add_fix(line, label, address),
            Content::Fallback(parts) => self.add_fallback(line, parts),
            Content::Statement { label, parts } => self.add_statement(line, label, parts),
        }
    }

    fn read(&mut self, number: u32, tokens: &[Token]) -> Result<(), MalError>
        ensures ok { OnOk result (add_tokens number self.old tokens.now ≡ Ok self.new) }
        ensures err { IfErr result (λ e. FailsBy is_memory e (add_tokens number self.old tokens.now)) }
        ensures left { OnErr result (self.new ≡ self.old) }
    {
        match line_from(self.machine, tokens) {
            Ok(content) => self.add(number, content),
            Err(fault) => Err(at_line(fault, number)),
        }
    }
}

fn at_line(fault: LineFault, line: u32) -> MalError
    ensures { result ≡ at_line line fault }
{
    match fault {
        LineFault::BadStatement => MalError::BadStatement(line),
        LineFault::WrongMachine => MalError::WrongMachine(line),
        LineFault::NoSuchOperation => MalError::NoSuchOperation(line),
    }
}

impl Reader for SourceReader {
    type Refusal = MalError;

    ghost use Rattle.mal_parser.specs.Reading.{Sketch, step};

    ghost State = { Sketch };

    ghost state = { λ s. s };

    ghost step = { step };

    ghost is_memory = { is_memory };

    fn line(&mut self, number: u32, line: &[u8]) -> Result<(), MalError> {
        reads_lines();
        reads_texts();
        match tokens_of(self.alloc, line) {
            Ok(tokens) => self.read(number, &tokens),
            Err(TokenError::BadToken) => Err(MalError::BadToken(number)),
            Err(TokenError::OutOfMemory) => Err(MalError::OutOfMemory),
        }
    }
}

impl LineLanguage for SourceReader {
    ghost use Rattle.mic_words.specs.declared.machine.Machine.{Machine};
    ghost use Rattle.mal_tokens.specs.declared.token.Token.{Token};
    ghost use Rattle.mal_line.specs.declared.line.LineFault.{LineFault};
    ghost use Rattle.mal_line.specs.declared.content.Content.{Content};
    ghost use Rattle.mal_parser.specs.declared.error.MalError.{MalError};
    ghost use Rattle.mal_parser.specs.Program.{MalView};
    ghost use Rattle.mal_parser.specs.Reading.{empty, parser, Sketch};
    ghost use Rattle.mal_parser.specs.Text.{grammar};

    ghost Setting = { Machine };

    ghost Token = { Token };

    ghost Fault = { LineFault };

    ghost Content = { Content };

    ghost Program = { MalView };

    ghost Refusal = { MalError };

    ghost State = { Sketch };

    ghost grammar = { grammar };

    ghost parser = { parser };

    ghost start = { empty };
}
