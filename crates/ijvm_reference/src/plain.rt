//! A run of the plain machine over a source and a sink.

ghost use Rattle.std.specs.Prelude.{◌≡◌, ◌≤◌, ◌<◌, ◌+◌, ◌^◌, Some, Ok, IfNone, IfOk, OnErr};
ghost use Rattle.ijvm_reference.specs.Common.{SinkGoesOn, SourceGoesOn, IsSafe};
ghost use Rattle.ijvm_reference.specs.Machine.{KeepsProgram};
ghost use Rattle.ijvm_reference.specs.Runs.{IsDriven, IsAtBoundary, ComesFurther, IsEmptied, EndsByCause, counts_after, stop_by, cut_by};
ghost use Rattle.ijvm_reference.specs.Plain.{program, end_of, IsReportOf, IsRunReport, IsShort};

use crate::frames::{Frames, StepEnd, StepError};
use console_port::{Console, MemoryMap};
use ijvm_image::Image;
use mic_base::{Sink, Source};
use mic_words::Machine;
use std::alloc::{AllocError, Global};

/// How a run over a source and a sink ends: as the definition's run, or cut by a fault.
#[derive(Clone, Copy, Debug, PartialEq, Eq)]
pub enum PlainEnd {
    Halt,
    Err,
    Bound,
    StackLimit,
    ReadFault,
    WriteFault,
}

/// What a run reports.
#[derive(Clone, Copy, Debug, PartialEq, Eq)]
pub struct PlainReport {
    pub end: PlainEnd,
    pub cycles: u64,
    /// The completed instructions.
    pub instructions: u64,
    /// The cycles at the last boundary.
    pub boundary: u64,
    /// The address of the last boundary's instruction.
    pub address: u32,
    pub sp: u32,
    pub lv: u32,
}

/// What a run has done so far.
#[derive(Clone, Copy)]
struct Counts {
    boundary: u64,
    cycles: u64,
    instructions: u64,
}

impl Counts {
    fn complete(&mut self, cost: u64)
        requires { (self.old.cycles + cost < 2 ^ 64) × (self.old.instructions + 1 < 2 ^ 64) }
        ensures { self.new ≡ record self.old { cycles = self.old.cycles + cost; instructions = self.old.instructions + 1 } }
    {
        self.cycles += cost;
        self.instructions += 1;
    }

    /// Counts a step by its end; none where the run goes on.
    fn count(&mut self, end: StepEnd, cost: u64) -> Option<Result<PlainEnd, AllocError>>
        requires { (self.old.cycles + cost < 2 ^ 64) × (self.old.instructions + 1 < 2 ^ 64) }
        ensures counts { self.new ≡ counts_after end cost self.old }
        ensures stop { result ≡ stop_by end }
    {
        match end {
            StepEnd::Went => {
                self.complete(cost);
                self.boundary = self.cycles;
                None
            }
            StepEnd::Halt => {
                self.complete(cost);
                Some(Ok(PlainEnd::Halt))
            }
            StepEnd::Err => {
                self.complete(cost);
                Some(Ok(PlainEnd::Err))
            }
            StepEnd::StackLimit => Some(Ok(PlainEnd::StackLimit)),
        }
    }
}

/// The end of a run whose step cannot be done.
fn cut_by(error: StepError) -> Result<PlainEnd, AllocError>
    ensures { result ≡ cut_by error }
{
    match error {
        StepError::ReadFault => Ok(PlainEnd::ReadFault),
        StepError::WriteFault => Ok(PlainEnd::WriteFault),
        StepError::OutOfMemory => Err(AllocError),
    }
}

/// Goes on to the next boundary, or ends the run.
fn pass<S: Source, K: Sink>(
    frames: &mut Frames,
    machine: Machine,
    bound: u64,
    counts: &mut Counts,
    console: &mut Console,
    source: &mut S,
    sink: &mut K,
) -> Option<Result<PlainEnd, AllocError>>
    requires bound { bound ≤ 2 ^ 62 }
    requires boundary { IsAtBoundary counts.old }
    ensures led { IsDriven result bound machine counts.old counts.new (S.left source.old) (K.held sink.old) console.old
        (S.left source.new) (K.held sink.new) console.new frames.old frames.new }
    ensures further { IfNone result (ComesFurther bound counts.old counts.new) }
    ensures program { KeepsProgram frames.old frames.new }
    ensures emptied { IsEmptied result console.new }
    ensures source { SourceGoesOn S.left console.old.ended source.old console.new.ended source.new }
    ensures sink { SinkGoesOn K.held K.passed (result ≡ Some (Ok PlainEnd.WriteFault)) sink.old sink.new }
    ensures cause { EndsByCause S.faults K.faults source.old sink.old source.new sink.new result }
{
    if counts.cycles >= bound {
        return Some(Ok(PlainEnd::Bound));
    }
    let cost = frames.cost(machine);
    match frames.step(console, source, sink) {
        Ok(end) => counts.count(end, cost),
        Err(error) => Some(cut_by(error)),
    }
}

/// Passes boundaries until the run ends.
fn drive<S: Source, K: Sink>(
    frames: &mut Frames,
    machine: Machine,
    bound: u64,
    counts: &mut Counts,
    console: &mut Console,
    source: &mut S,
    sink: &mut K,
) -> Result<PlainEnd, AllocError>
    requires bound { bound ≤ 2 ^ 62 }
    requires boundary { IsAtBoundary counts.old }
    ensures led { IsDriven (Some result) bound machine counts.old counts.new (S.left source.old) (K.held sink.old) console.old
        (S.left source.new) (K.held sink.new) console.new frames.old frames.new }
    ensures program { KeepsProgram frames.old frames.new }
    ensures emptied { IsEmptied (Some result) console.new }
    ensures source { SourceGoesOn S.left console.old.ended source.old console.new.ended source.new }
    ensures sink { SinkGoesOn K.held K.passed (result ≡ Ok PlainEnd.WriteFault) sink.old sink.new }
    ensures cause { EndsByCause S.faults K.faults source.old sink.old source.new sink.new (Some result) }
{
    'run: loop {
        match pass(frames, machine, bound, counts, console, source, sink) {
            Some(end) => return end,
            None => {}
        }
    }
}

fn report(frames: &Frames, counts: Counts, end: PlainEnd) -> PlainReport
    ensures end { result.end ≡ end }
    ensures report { IsReportOf result counts frames.now }
{
    PlainReport {
        end,
        cycles: counts.cycles,
        instructions: counts.instructions,
        boundary: counts.boundary,
        address: frames.address(),
        sp: frames.sp(),
        lv: frames.lv(),
    }
}

/// Runs an image whose run never gets stuck, to its end, or until its cycles reach the bound at a boundary.
pub fn run_plain<S: Source, K: Sink>(
    alloc: Global,
    image: &Image,
    main_locals: u32,
    map: MemoryMap,
    machine: Machine,
    bound: u64,
    source: &mut S,
    sink: &mut K,
) -> Result<PlainReport, AllocError>
    requires room { 0x8000 + main_locals ≤ map.stack_end }
    requires safe { IsSafe image.now map.stack_end main_locals }
    requires bound { bound ≤ 2 ^ 62 }
    ensures report { IfOk result (IsRunReport (program image.now map machine) main_locals bound
        (S.left source.old) (K.held sink.old) (S.left source.new) (K.held sink.new)) }
    ensures short { OnErr result (IsShort (program image.now map machine) main_locals bound
        (S.left source.old) (K.held sink.old) (S.left source.new) (K.held sink.new)) }
    ensures sink { SinkGoesOn K.held K.passed (end_of result ≡ Ok PlainEnd.WriteFault) sink.old sink.new }
    ensures cause { EndsByCause S.faults K.faults source.old sink.old source.new sink.new (Some (end_of result)) }
{
    let mut frames = Frames::new(alloc, image, main_locals, map)?;
    let mut console = Console::new();
    let mut counts = Counts {
        boundary: 2,
        cycles: 2,
        instructions: 0,
    };
    let driven = drive(
        &mut frames,
        machine,
        bound,
        &mut counts,
        &mut console,
        source,
        sink,
    )?;
    let end = match console.flush(sink) {
        Ok(()) => driven,
        Err(_) => PlainEnd::WriteFault,
    };
    Ok(report(&frames, counts, end))
}
