//! IN and OUT, which need the console.

ghost use Rattle.std.specs.Prelude.{◌≡◌, ◌≢◌, ◌+◌, ◌<◌, ◌^◌, ◌∷◌, [], ℕ, List, drop, IfOk, OnOk, IfErr, Some, Err};
ghost use Rattle.ijvm_reference.specs.Common.{Untaken, Given, Gives, IsFault, SinkGoesOn, SourceGoesOn, next_byte, read_in};
ghost use Rattle.ijvm_reference.specs.Machine.{KeepsProgram, state_of, outcome_of};
ghost use Rattle.ijvm_reference.specs.Kept.{HasRead, WritesOut};
ghost use Rattle.ijvm_reference.specs.Steps.{IsLedOn, CutsOff, CutsOffSink, FailsByCause, FailsToGive, GivesOut, HasStepCause, IsMetBy, StepFails};

use crate::compute::Effect;
use crate::frames::StepError;
use crate::machine::PlainMachine;
use console_port::{BusFault, Console};
use ijvm_instr::Instr;
use mic_base::{Sink, Source};

/// A console's fault as a step's.
fn step_error(fault: BusFault) -> StepError
    requires { IsFault fault }
    ensures read { fault ≡ BusFault.ReadFault → result ≡ StepError.ReadFault }
    ensures write { fault ≡ BusFault.WriteFault → result ≡ StepError.WriteFault }
{
    match fault {
        BusFault::ReadFault => StepError::ReadFault,
        BusFault::WriteFault => StepError::WriteFault,
        BusFault::StackLimit(_) | BusFault::OutOfMap(_) => unreachable!(),
    }
}

#[tactic(auto, using(crate::proofs::Keeping::take_reads, crate::proofs::Keeping::met_read))]
fn take_byte<S: Source, K: Sink>(
    console: &mut Console,
    source: &mut S,
    sink: &mut K,
) -> Result<u8, StepError>
    ensures ok { IfOk result (λ byte. (rest : List ℕ) → Untaken (S.left source.new) console.new.ended rest →
        (untaken : List ℕ) × Untaken (S.left source.old) console.old.ended untaken × (byte ≡ next_byte untaken) × (drop 1 untaken ≡ rest)) }
    ensures given { OnOk result ((given : List ℕ) →
        Given (K.held sink.old) console.old.kept given → Given (K.held sink.new) console.new.kept given) }
    ensures err { CutsOff S.left K.held source.old sink.old console.old source.new sink.new console.new result }
    ensures kept { OnOk result (HasRead (S.left source.old) console.old console.new) }
    ensures met { IfErr result (λ e. IsMetBy e (Some Instr.In) console.old) }
    ensures source { SourceGoesOn S.left console.old.ended source.old console.new.ended source.new }
    ensures sink { SinkGoesOn K.held K.passed (result ≡ Err StepError.WriteFault) sink.old sink.new }
    ensures cause { FailsByCause S.faults K.faults source.old sink.old source.new sink.new result }
{
    match console.take(source, sink) {
        Ok(byte) => Ok(byte),
        Err(fault) => Err(step_error(fault)),
    }
}

#[tactic(auto, using(crate::proofs::Keeping::give_writes, crate::proofs::Keeping::not_roomy, crate::proofs::Keeping::met_full))]
fn give_byte<K: Sink>(console: &mut Console, byte: u8, sink: &mut K) -> Result<(), StepError>
    ensures ended { console.new.ended ≡ console.old.ended }
    ensures ok { OnOk result (Gives (byte ∷ []) (K.held sink.old) console.old.kept (K.held sink.new) console.new.kept) }
    ensures err { CutsOffSink K.held sink.old console.old sink.new console.new result }
    ensures kept { OnOk result (WritesOut console.old console.new) }
    ensures met { IfErr result (λ e. IsMetBy e (Some Instr.Out) console.old) }
    ensures sink { SinkGoesOn K.held K.passed (result ≡ Err StepError.WriteFault) sink.old sink.new }
    ensures cause { HasStepCause 0 0 (K.faults sink.old) (K.faults sink.new) result }
{
    match console.give(byte, sink) {
        Ok(()) => Ok(()),
        Err(fault) => Err(step_error(fault)),
    }
}

/// Takes a byte from the console, and pushes it where the stack has room.
#[tactic(auto, using(crate::proofs::Keeping::short_met))]
pub fn read_in<S: Source, K: Sink>(
    machine: &mut PlainMachine,
    console: &mut Console,
    source: &mut S,
    sink: &mut K,
) -> Result<Effect, StepError>
    requires { machine.old.at + 1 < 2 ^ 32 }
    ensures ok { IfOk result (λ e. IsLedOn (S.left source.old) (K.held sink.old) console.old (S.left source.new) (K.held sink.new) console.new
        (λ u g u' g'. read_in machine.old.stack_end (state_of machine.old u g) ≡ outcome_of e (state_of machine.new u' g'))) }
    ensures err { IfErr result (StepFails (Some Instr.In) (S.left source.old) (K.held sink.old) console.old
        (S.left source.new) (K.held sink.new) console.new machine.old machine.new) }
    ensures program { KeepsProgram machine.old machine.new }
    ensures kept { OnOk result (HasRead (S.left source.old) console.old console.new) }
    ensures source { SourceGoesOn S.left console.old.ended source.old console.new.ended source.new }
    ensures sink { SinkGoesOn K.held K.passed (result ≡ Err StepError.WriteFault) sink.old sink.new }
    ensures cause { FailsByCause S.faults K.faults source.old sink.old source.new sink.new result }
{
    if !machine.has_room(1) {
        take_byte(console, source, sink)?;
        return Ok(Effect::StackLimit);
    }
    // Room for the byte is made before it is taken.
    machine.push(0)?;
    match take_byte(console, source, sink) {
        Ok(byte) => {
            machine.replace_top(u32::from(byte));
            machine.go(machine.address() + 1);
            Ok(Effect::Went)
        }
        Err(fault) => {
            let _ = machine.pop();
            Err(fault)
        }
    }
}

/// Gives the low byte of the top to the console, and drops the top.
pub fn write_out<K: Sink>(
    machine: &mut PlainMachine,
    console: &mut Console,
    sink: &mut K,
) -> Result<Effect, StepError>
    requires { machine.old.at + 1 < 2 ^ 32 }
    ensures ok { GivesOut K.held sink.old console.old machine.old sink.new console.new machine.new result }
    ensures err { FailsToGive K.held sink.old console.old machine.old sink.new console.new machine.new result }
    ensures program { KeepsProgram machine.old machine.new }
    ensures kept { IfOk result (λ e. e ≢ Effect.Stuck → WritesOut console.old console.new) }
    ensures ended { console.new.ended ≡ console.old.ended }
    ensures sink { SinkGoesOn K.held K.passed (result ≡ Err StepError.WriteFault) sink.old sink.new }
    ensures cause { HasStepCause 0 0 (K.faults sink.old) (K.faults sink.new) result }
{
    let Some(value) = machine.top() else {
        return Ok(Effect::Stuck);
    };
    give_byte(console, (value % 256) as u8, sink)?;
    let _ = machine.pop();
    machine.go(machine.address() + 1);
    Ok(Effect::Went)
}
