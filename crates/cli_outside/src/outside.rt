//! The outside of one call of the program, as one value.

ghost use Rattle.std.specs.Prelude.{◌≡◌, OnOk, IfOk};
ghost use Rattle.cli_outside.specs.Status as exits;
ghost use Rattle.cli_outside.specs.Messages.{message, out_of_memory};
ghost use Rattle.cli_outside.specs.Outside.{Over, PrintsOnOut, TellsOnErr, files_of, names_of, sink_of, source_of};
ghost use Rattle.cli_outside.specs.Work.{IsFileRead, IsUnread, OverIfErr, TellsRefusal, WritesThenPrints};

use crate::refusal::Refusal;
use crate::said::{no_memory, say, say_of};
use crate::status::Status;
use mic_base::{FileError, Files, Sink, Source};
use std::alloc::Global;
use std::marker::Model;

/// The files, the console and the two sinks of a call, lent to its command.
#[derive(Drop)]
pub struct Outside<'a, F: Files, S: Source, K: Sink, E: Sink> {
    pub files: &'a mut F,
    pub console: &'a mut S,
    pub out: &'a mut K,
    pub err: &'a mut E,
}

impl<'a, F: Files, S: Source, K: Sink, E: Sink> Model for Outside<'a, F, S, K, E> {
    ghost use Rattle.cli_outside.specs.Outside.{LentView, files_of, lender_names, lent_view, outside_view, sink_of, source_of};

    ghost Value = { LentView };

    ghost view = { λ o. lent_view (lender_names o.files.ghost_name o.console.ghost_name o.out.ghost_name o.err.ghost_name)
        (outside_view (files_of F.contents F.faults o.files.now) (source_of S.left S.faults o.console.now)
        (sink_of K.held K.passed K.faults o.out.now) (sink_of E.held E.passed E.faults o.err.now)) };
}

impl<'a, F: Files, S: Source, K: Sink, E: Sink> Outside<'a, F, S, K, E> {
    pub fn new(files: &'a mut F, console: &'a mut S, out: &'a mut K, err: &'a mut E) -> Self
        ensures names { result.names ≡ names_of files.entry console.entry out.entry err.entry }
        ensures files { result.seen.files ≡ files_of F.contents F.faults files.entry.now }
        ensures console { result.seen.console ≡ source_of S.left S.faults console.entry.now }
        ensures out { result.seen.out ≡ sink_of K.held K.passed K.faults out.entry.now }
        ensures err { result.seen.err ≡ sink_of E.held E.passed E.faults err.entry.now }
    {
        Outside {
            files,
            console,
            out,
            err,
        }
    }

    /// The parts, which `close` gives back.
    pub fn into_parts(self) -> (&'a mut F, &'a mut S, &'a mut K, &'a mut E)
        ensures names { self.entry.names ≡ names_of result.0 result.1 result.2 result.3 }
        ensures files { self.entry.seen.files ≡ files_of F.contents F.faults result.0.now }
        ensures console { self.entry.seen.console ≡ source_of S.left S.faults result.1.now }
        ensures out { self.entry.seen.out ≡ sink_of K.held K.passed K.faults result.2.now }
        ensures err { self.entry.seen.err ≡ sink_of E.held E.passed E.faults result.3.now }
    {
        let Outside {
            files,
            console,
            out,
            err,
        } = self;
        (files, console, out, err)
    }

    /// Puts a text to `out`, with its status.
    pub fn print(&mut self, text: &[u8], status: Status) -> Status
        ensures { Over (PrintsOnOut text.now status.0) self.old self.new result.0 }
    {
        say(self.out, text, status)
    }

    /// Puts a text to `err`, with its status.
    pub fn tell(&mut self, text: &[u8], status: Status) -> Status
        ensures { Over (TellsOnErr text.now status.0) self.old self.new result.0 }
    {
        say(self.err, text, status)
    }

    /// Prints this of a file on `err`.
    pub fn tell_of(&mut self, file: &str, reason: &[u8], status: Status) -> Status
        ensures { Over (TellsOnErr (message file.now reason.now) status.0) self.old self.new result.0 }
    {
        say_of(self.err, file, reason, status)
    }

    /// Prints that memory ran out.
    pub fn no_memory(&mut self) -> Status
        ensures { Over (TellsOnErr out_of_memory exits.memory) self.old self.new result.0 }
    {
        no_memory(self.err)
    }

    /// Prints why the file is refused, or that memory ran out.
    pub fn refuse(&mut self, file: &str, refusal: Refusal) -> Status
        ensures { Over (TellsRefusal file.now refusal) self.old self.new result.0 }
    {
        match refusal {
            Refusal::Refused(reason) => self.tell_of(file, reason.bytes(), Status::REFUSED),
            Refusal::OutOfMemory => self.no_memory(),
        }
    }

    /// The file's bytes. Where they cannot be read, it prints why and returns the status of that.
    pub fn read(&mut self, alloc: Global, file: &str) -> Result<Vec<u8>, Status>
        ensures read { IfOk result (λ bytes. IsFileRead file.now bytes.items self.old.seen) }
        ensures same { OnOk result (self.new ≡ self.old) }
        ensures unread { OverIfErr (IsUnread file.now) self.old self.new result }
    {
        match self.files.read_file(alloc, file) {
            Ok(bytes) => Ok(bytes),
            Err(FileError::Failed) => Err(self.tell_of(file, b": cannot read", Status::FILE)),
            Err(FileError::TooLong) => {
                Err(self.tell_of(file, b": longer than 1048576 bytes", Status::TOO_LONG))
            }
            Err(FileError::OutOfMemory) => Err(self.no_memory()),
        }
    }

    /// Writes bytes to a file, and then prints a text.
    pub fn write(&mut self, alloc: Global, target: &str, bytes: &[u8], text: &[u8]) -> Status
        ensures { Over (WritesThenPrints target.now bytes.now text.now) self.old self.new result.0 }
    {
        match self.files.write_file(alloc, target, bytes) {
            Ok(()) => self.print(text, Status::DONE),
            Err(FileError::Failed) => self.tell_of(target, b": cannot write", Status::FILE),
            Err(FileError::OutOfMemory) => self.no_memory(),
            Err(FileError::TooLong) => unreachable!(),
        }
    }
}

/// Gives back the parts: the caller's parts are what these are now.
pub fn close<F: Files, S: Source, K: Sink, E: Sink>(
    files: &mut F,
    console: &mut S,
    out: &mut K,
    err: &mut E,
)
    ensures files { files.new ≡ files.old }
    ensures console { console.new ≡ console.old }
    ensures out { out.new ≡ out.old }
    ensures err { err.new ≡ err.old }
{}
