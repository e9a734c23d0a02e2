//! The plain machine, which computes the definition's run step by step.

ghost use Rattle.std.specs.Prelude.{◌≡◌, ◌+◌, ◌≤◌, [], ◌∷◌, Err, IfOk, OnOk, IfErr};
ghost use Rattle.ijvm_reference.specs.Common.{SinkGoesOn, SourceGoesOn, base, top_of, NeverStuck, IsSafe};
ghost use Rattle.ijvm_reference.specs.Machine.{MachineView, KeepsProgram, next_instr, state_of, started};
ghost use Rattle.ijvm_reference.specs.Kept.{HasKept};
ghost use Rattle.ijvm_reference.specs.Steps.{IfTurned, IsLedOn, step_end, Does, Turns, StepFails, FailsByCause};

use crate::compute::{Effect, compute};
use crate::machine::PlainMachine;
use crate::port::{read_in, write_out};
use console_port::{Console, MemoryMap};
use ijvm_image::Image;
use ijvm_instr::Instr;
use mic_base::{Sink, Source};
use std::alloc::{AllocError, Global};
use std::marker::Model;
use thiserror::Error;

/// How a step ends.
#[derive(Clone, Copy, Debug, PartialEq, Eq)]
pub enum StepEnd {
    Went,
    Halt,
    Err,
    StackLimit,
}

/// Why a step cannot be done.
#[derive(Clone, Copy, Debug, PartialEq, Eq, Error)]
pub enum StepError {
    #[error("the source failed")]
    ReadFault,
    #[error("the sink failed")]
    WriteFault,
    #[error("out of memory")]
    OutOfMemory,
}

impl From<AllocError> for StepError {
    ghost use Rattle.ijvm_reference.specs.declared.frames.StepError.TheVariants.{OutOfMemory};

    ghost from_gives = { λ _ e. e ≡ OutOfMemory };

    fn from(_error: AllocError) -> StepError {
        StepError::OutOfMemory
    }
}

fn step_end(effect: Effect) -> Option<StepEnd>
    ensures { result ≡ step_end effect }
{
    match effect {
        Effect::Went => Some(StepEnd::Went),
        Effect::StackLimit => Some(StepEnd::StackLimit),
        Effect::Stuck => None,
    }
}

/// Does one instruction of the machine; none where it is stuck.
#[tactic(auto, using(crate::proofs::Turned::is_computed, crate::proofs::Keeping::short_met, crate::proofs::Keeping::kept_read, crate::proofs::Keeping::kept_written, crate::proofs::Keeping::kept_same))]
pub fn turn<S: Source, K: Sink>(
    machine: &mut PlainMachine,
    console: &mut Console,
    source: &mut S,
    sink: &mut K,
) -> Result<Option<StepEnd>, StepError>
    ensures ok { IfOk result (λ end. IsLedOn (S.left source.old) (K.held sink.old) console.old (S.left source.new) (K.held sink.new) console.new
        (Turns end machine.old machine.new)) }
    ensures err { IfErr result (StepFails (next_instr machine.old) (S.left source.old) (K.held sink.old) console.old
        (S.left source.new) (K.held sink.new) console.new machine.old machine.new) }
    ensures kept { IfTurned result (HasKept (S.left source.old) (next_instr machine.old) console.old console.new) }
    ensures source { SourceGoesOn S.left console.old.ended source.old console.new.ended source.new }
    ensures sink { SinkGoesOn K.held K.passed (result ≡ Err StepError.WriteFault) sink.old sink.new }
    ensures cause { FailsByCause S.faults K.faults source.old sink.old source.new sink.new result }
    ensures program { KeepsProgram machine.old machine.new }
{
    let Some(instr) = machine.next() else {
        return Ok(None);
    };
    match instr {
        Instr::Halt => Ok(Some(StepEnd::Halt)),
        Instr::Err => Ok(Some(StepEnd::Err)),
        Instr::In => Ok(step_end(read_in(machine, console, source, sink)?)),
        Instr::Out => Ok(step_end(write_out(machine, console, sink)?)),
        _ => Ok(step_end(compute(machine, instr)?)),
    }
}

/// The plain machine over an image whose run never gets stuck.
#[derive(Drop)]
pub struct Frames {
    pub(crate) machine: PlainMachine,
}

impl Model for Frames {
    ghost Value = { MachineView };

    ghost view = { λ f. f.machine };

    ghost invariant = { λ f. NeverStuck f.machine.image f.machine.stack_end (state_of f.machine [] []) };
}

impl Frames {
    /// The start of a run, with this many locals of main.
    pub fn new(
        alloc: Global,
        image: &Image,
        main_locals: u32,
        map: MemoryMap,
    ) -> Result<Frames, AllocError>
        requires room { 0x8000 + main_locals ≤ map.stack_end }
        requires safe { IsSafe image.now map.stack_end main_locals }
        ensures { IfOk result (λ f. f ≡ started image.now map.stack_end main_locals) }
    {
        Ok(Frames {
            machine: PlainMachine::new(alloc, image, main_locals, map.stack_end)?,
        })
    }

    /// Does the next instruction. Room for a push is made before a byte is taken.
    pub fn step<S: Source, K: Sink>(
        &mut self,
        console: &mut Console,
        source: &mut S,
        sink: &mut K,
    ) -> Result<StepEnd, StepError>
        ensures ok { IfOk result (λ end. IsLedOn (S.left source.old) (K.held sink.old) console.old (S.left source.new) (K.held sink.new) console.new
            (Does end self.old self.new)) }
        ensures program { KeepsProgram self.old self.new }
        ensures err { IfErr result (StepFails (next_instr self.old) (S.left source.old) (K.held sink.old) console.old
            (S.left source.new) (K.held sink.new) console.new self.old self.new) }
        ensures kept { OnOk result (HasKept (S.left source.old) (next_instr self.old) console.old console.new) }
        ensures source { SourceGoesOn S.left console.old.ended source.old console.new.ended source.new }
        ensures sink { SinkGoesOn K.held K.passed (result ≡ Err StepError.WriteFault) sink.old sink.new }
        ensures cause { FailsByCause S.faults K.faults source.old sink.old source.new sink.new result }
    {
        Ok(turn(&mut self.machine, console, source, sink)?.unwrap())
    }

    /// The byte address of the next instruction.
    pub fn address(&self) -> u32
        ensures { result ≡ self.now.at }
    {
        self.machine.at
    }

    /// The word address before that of the running frame's next operand.
    pub fn sp(&self) -> u32
        ensures { result + 1 ≡ base (self.now.running ∷ self.now.callers) }
    {
        self.machine.end() - 1
    }

    /// The word address at which the running frame begins.
    pub fn lv(&self) -> u32
        ensures { result ≡ base self.now.callers }
    {
        self.machine.lv
    }

    /// The last operand; none exactly where the running frame has none.
    pub fn tos(&self) -> Option<u32>
        ensures { result ≡ top_of self.now.running.operands }
    {
        self.machine.top()
    }
}
