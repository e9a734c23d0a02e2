//! The instructions that neither need the console nor end the run.

ghost use Rattle.std.specs.Prelude.{◌≡◌, ◌==◌, ◌+◌, ◌<◌, ◌^◌, OnErr};
ghost use Rattle.ijvm_reference.specs.Common.{target, Goes, moved, step, pushed, stored, popped, doubled, swapped, combined, way, branched, compared, returned};
ghost use Rattle.ijvm_reference.specs.Common.{is_negative};
ghost use Rattle.ijvm_reference.specs.Machine.{Leads, LeadsBy, KeepsProgram, constant_pushed, local_increased, local_loaded, method_called, operate, IsComputed};

use crate::machine::PlainMachine;
use ijvm_instr::{Instr, target_of};
use std::alloc::AllocError;

/// The outcome of an instruction.
#[derive(Clone, Copy, Debug, PartialEq, Eq)]
pub enum Effect {
    Went,
    StackLimit,
    /// The machine lacks what the instruction needs.
    Stuck,
}

/// What combines the second operand and the top.
#[derive(Clone, Copy, Debug, PartialEq, Eq)]
pub enum Operator {
    Add,
    Subtract,
    And,
    Or,
}

impl Operator {
    #[tactic(auto, unfolding(mic_words::specs::Arithmetic::wrap))]
    fn value(self, second: u32, top: u32) -> u32
        ensures { result ≡ operate self second top }
    {
        match self {
            Operator::Add => second.wrapping_add(top),
            Operator::Subtract => second.wrapping_sub(top),
            Operator::And => second & top,
            Operator::Or => second | top,
        }
    }
}

/// Goes on after an instruction that does nothing else.
fn pass(machine: &mut PlainMachine) -> Effect
    requires { machine.old.at + 1 < 2 ^ 32 }
    ensures leads { Leads (λ s. Goes (moved s s.running.operands (s.at + 1))) result machine.old machine.new }
    ensures program { KeepsProgram machine.old machine.new }
{
    machine.go(machine.address() + 1);
    Effect::Went
}

fn jump(machine: &mut PlainMachine, offset: i16) -> Effect
    ensures leads { Leads (λ s. Goes (moved s s.running.operands (target s.at offset))) result machine.old machine.new }
    ensures program { KeepsProgram machine.old machine.new }
{
    machine.go(target_of(machine.address(), offset));
    Effect::Went
}

/// Pushes a value and goes on after an instruction of this size.
pub fn push(machine: &mut PlainMachine, value: u32, size: u32) -> Result<Effect, AllocError>
    requires { machine.old.at + size < 2 ^ 32 }
    ensures ok { LeadsBy result (λ s. pushed machine.old.stack_end s value (s.at + size)) machine.old machine.new }
    ensures err { OnErr result (machine.new ≡ machine.old) }
    ensures program { KeepsProgram machine.old machine.new }
{
    if !machine.has_room(1) {
        return Ok(Effect::StackLimit);
    }
    machine.push(value)?;
    machine.go(machine.address() + size);
    Ok(Effect::Went)
}

pub fn push_constant(machine: &mut PlainMachine, index: u16) -> Result<Effect, AllocError>
    requires { machine.old.at + 3 < 2 ^ 32 }
    ensures ok { LeadsBy result (constant_pushed machine.old index) machine.old machine.new }
    ensures err { OnErr result (machine.new ≡ machine.old) }
    ensures program { KeepsProgram machine.old machine.new }
{
    match machine.constant(index) {
        Some(value) => push(machine, value, 3),
        None => Ok(Effect::Stuck),
    }
}

/// Pushes a local.
pub fn load(machine: &mut PlainMachine, index: u16, size: u32) -> Result<Effect, AllocError>
    requires { machine.old.at + size < 2 ^ 32 }
    ensures ok { LeadsBy result (local_loaded machine.old index size) machine.old machine.new }
    ensures err { OnErr result (machine.new ≡ machine.old) }
    ensures program { KeepsProgram machine.old machine.new }
{
    match machine.local(index) {
        Some(value) => push(machine, value, size),
        None => Ok(Effect::Stuck),
    }
}

/// Pops into a local.
pub fn store(machine: &mut PlainMachine, index: u16, size: u32) -> Effect
    requires { machine.old.at + size < 2 ^ 32 }
    ensures leads { Leads (λ s. stored s index s.running.operands (s.at + size)) result machine.old machine.new }
    ensures program { KeepsProgram machine.old machine.new }
{
    let Some(value) = machine.pop() else {
        return Effect::Stuck;
    };
    if !machine.store(index, value) {
        return Effect::Stuck;
    }
    machine.go(machine.address() + size);
    Effect::Went
}

/// Adds a signed number to a local.
#[tactic(auto, unfolding(mic_words::specs::Arithmetic::wrap))]
pub fn increase(machine: &mut PlainMachine, index: u16, by: i16, size: u32) -> Effect
    requires { machine.old.at + size < 2 ^ 32 }
    ensures leads { Leads (local_increased index by size) result machine.old machine.new }
    ensures program { KeepsProgram machine.old machine.new }
{
    let Some(value) = machine.local(index) else {
        return Effect::Stuck;
    };
    machine.set_local(index, value.wrapping_add(i32::from(by).cast_unsigned()));
    machine.go(machine.address() + size);
    Effect::Went
}

/// Drops the top.
pub fn discard(machine: &mut PlainMachine) -> Effect
    requires { machine.old.at + 1 < 2 ^ 32 }
    ensures leads { Leads (λ s. popped s s.running.operands) result machine.old machine.new }
    ensures program { KeepsProgram machine.old machine.new }
{
    if machine.pop().is_none() {
        return Effect::Stuck;
    }
    machine.go(machine.address() + 1);
    Effect::Went
}

/// Pushes the top again.
pub fn double(machine: &mut PlainMachine) -> Result<Effect, AllocError>
    requires { machine.old.at + 1 < 2 ^ 32 }
    ensures ok { LeadsBy result (λ s. doubled machine.old.stack_end s s.running.operands) machine.old machine.new }
    ensures err { OnErr result (machine.new ≡ machine.old) }
    ensures program { KeepsProgram machine.old machine.new }
{
    match machine.top() {
        Some(value) => push(machine, value, 1),
        None => Ok(Effect::Stuck),
    }
}

/// Puts what the operator makes of the top two operands in their place.
pub fn combine(machine: &mut PlainMachine, operator: Operator) -> Effect
    requires { machine.old.at + 1 < 2 ^ 32 }
    ensures leads { Leads (λ s. combined (operate operator) s s.running.operands) result machine.old machine.new }
    ensures program { KeepsProgram machine.old machine.new }
{
    let Some(top) = machine.pop() else {
        return Effect::Stuck;
    };
    let Some(second) = machine.top() else {
        return Effect::Stuck;
    };
    machine.replace_top(operator.value(second, top));
    machine.go(machine.address() + 1);
    Effect::Went
}

/// Exchanges the top two operands.
pub fn swap(machine: &mut PlainMachine) -> Effect
    requires { machine.old.at + 1 < 2 ^ 32 }
    ensures leads { Leads (λ s. swapped s s.running.operands) result machine.old machine.new }
    ensures program { KeepsProgram machine.old machine.new }
{
    if !machine.swap() {
        return Effect::Stuck;
    }
    machine.go(machine.address() + 1);
    Effect::Went
}

/// Jumps, or goes on after the branch.
fn choose(machine: &mut PlainMachine, taken: bool, offset: i16)
    requires { machine.old.at + 3 < 2 ^ 32 }
    ensures is { machine.new ≡ record machine.old { at = way machine.old.at offset taken } }
{
    let at = machine.address();
    if taken {
        machine.go(target_of(at, offset));
    } else {
        machine.go(at + 3);
    }
}

/// Jumps if the popped operand is 0.
pub fn branch_if_zero(machine: &mut PlainMachine, offset: i16) -> Effect
    requires { machine.old.at + 3 < 2 ^ 32 }
    ensures leads { Leads (λ s. branched (λ y. y == 0) s offset s.running.operands) result machine.old machine.new }
    ensures program { KeepsProgram machine.old machine.new }
{
    let Some(value) = machine.pop() else {
        return Effect::Stuck;
    };
    choose(machine, value == 0, offset);
    Effect::Went
}

/// Jumps if the popped operand is negative.
pub fn branch_if_negative(machine: &mut PlainMachine, offset: i16) -> Effect
    requires { machine.old.at + 3 < 2 ^ 32 }
    ensures leads { Leads (λ s. branched is_negative s offset s.running.operands) result machine.old machine.new }
    ensures program { KeepsProgram machine.old machine.new }
{
    let Some(value) = machine.pop() else {
        return Effect::Stuck;
    };
    choose(machine, value >= 0x8000_0000, offset);
    Effect::Went
}

/// Jumps if the two popped operands are equal.
pub fn branch_if_equal(machine: &mut PlainMachine, offset: i16) -> Effect
    requires { machine.old.at + 3 < 2 ^ 32 }
    ensures leads { Leads (λ s. compared s offset s.running.operands) result machine.old machine.new }
    ensures program { KeepsProgram machine.old machine.new }
{
    let Some(top) = machine.pop() else {
        return Effect::Stuck;
    };
    let Some(second) = machine.pop() else {
        return Effect::Stuck;
    };
    choose(machine, second == top, offset);
    Effect::Went
}

/// Calls a method with the last operands.
pub fn call(machine: &mut PlainMachine, index: u16) -> Result<Effect, AllocError>
    requires { machine.old.at + 3 < 2 ^ 32 }
    ensures ok { LeadsBy result (method_called machine.old index) machine.old machine.new }
    ensures err { OnErr result (machine.new ≡ machine.old) }
    ensures program { KeepsProgram machine.old machine.new }
{
    let Some(method) = machine.method(index) else {
        return Ok(Effect::Stuck);
    };
    if method.params == 0 || machine.depth() < method.params as usize {
        return Ok(Effect::Stuck);
    }
    if !machine.has_room(u32::from(method.others) + 2) {
        return Ok(Effect::StackLimit);
    }
    machine.call(method)?;
    Ok(Effect::Went)
}

/// Returns the top to the caller.
pub fn return_top(machine: &mut PlainMachine) -> Result<Effect, AllocError>
    ensures ok { LeadsBy result (λ s. returned s s.running.back s.callers s.running.operands) machine.old machine.new }
    ensures err { OnErr result (machine.new ≡ machine.old) }
    ensures program { KeepsProgram machine.old machine.new }
{
    let Some(back) = machine.back() else {
        return Ok(Effect::Stuck);
    };
    let Some(value) = machine.top() else {
        return Ok(Effect::Stuck);
    };
    if !machine.has_caller() {
        return Ok(Effect::Stuck);
    }
    machine.leave(back, value)?;
    Ok(Effect::Went)
}

/// Does one instruction.
pub fn compute(machine: &mut PlainMachine, instr: Instr) -> Result<Effect, AllocError>
    requires at { machine.old.at + 6 < 2 ^ 32 }
    requires computed { IsComputed instr }
    ensures ok { LeadsBy result (step machine.old.image machine.old.stack_end instr) machine.old machine.new }
    ensures err { OnErr result (machine.new ≡ machine.old) }
    ensures program { KeepsProgram machine.old machine.new }
{
    match instr {
        Instr::Nop => Ok(pass(machine)),
        Instr::Bipush(b) => push(machine, i32::from(b).cast_unsigned(), 2),
        Instr::LdcW(k) => push_constant(machine, k),
        Instr::Iload(k) => load(machine, u16::from(k), 2),
        Instr::Istore(k) => Ok(store(machine, u16::from(k), 2)),
        Instr::Pop => Ok(discard(machine)),
        Instr::Dup => double(machine),
        Instr::Swap => Ok(swap(machine)),
        Instr::Iadd => Ok(combine(machine, Operator::Add)),
        Instr::Isub => Ok(combine(machine, Operator::Subtract)),
        Instr::Iand => Ok(combine(machine, Operator::And)),
        Instr::Iinc(k, b) => Ok(increase(machine, u16::from(k), i16::from(b), 3)),
        Instr::Ifeq(o) => Ok(branch_if_zero(machine, o)),
        Instr::Iflt(o) => Ok(branch_if_negative(machine, o)),
        Instr::IfIcmpeq(o) => Ok(branch_if_equal(machine, o)),
        Instr::Goto(o) => Ok(jump(machine, o)),
        Instr::Ireturn => return_top(machine),
        Instr::Ior => Ok(combine(machine, Operator::Or)),
        Instr::Invokevirtual(k) => call(machine, k),
        Instr::WideIload(k) => load(machine, k, 4),
        Instr::WideIstore(k) => Ok(store(machine, k, 4)),
        Instr::WideIinc(k, n) => Ok(increase(machine, k, n, 6)),
        Instr::In | Instr::Out | Instr::Err | Instr::Halt => unreachable!(),
    }
}
