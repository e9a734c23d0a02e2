//! The plain machine without its console.

ghost use Rattle.std.specs.Prelude.{◌≡◌, ◌≢◌, ◌↔◌, ◌+◌, ◌<◌, ◌≤◌, ◌^◌, [], ◌∷◌, nat_le, reverse, slice_get, drop, Some, None, IfOk, OnOk, OnErr, IfSome, IsTrue, length, vec_len, vec_capacity};
ghost use Rattle.std.specs.Option.{option_flatten};
ghost use Rattle.ijvm_reference.specs.Common.{instr_at, method_at, are_equal, base, top_of};
ghost use Rattle.ijvm_reference.specs.Machine.{MachineView, ArePlaced, started, with_operands, in_call, with_local, KeepsProgram, Pops, Returns, Stores, Swaps};

use crate::frame::{Frame, are_last_equal, set_last, swap_last};
use ijvm_image::{Image, Method};
use ijvm_instr::{Instr, decode_at};
use std::alloc::{AllocError, Global};
use std::marker::Model;
use std::mem;

/// Frames over an image.
#[derive(Drop)]
pub struct PlainMachine {
    alloc: Global,
    image: Image,
    stack_end: u32,
    running: Frame,
    /// The nearest is the last.
    callers: Vec<Frame>,
    /// The byte address of the next instruction.
    pub at: u32,
    /// The word address at which the running frame begins.
    pub lv: u32,
}

impl Model for PlainMachine {
    ghost Value = { MachineView };

    ghost view = { λ m. record { image = m.image; stack_end = m.stack_end; running = m.running; callers = reverse m.callers.items; at = m.at } };

    ghost invariant = { λ m. ArePlaced m.stack_end m.lv m.running (reverse m.callers.items) };
}

fn copy_image(alloc: Global, image: &Image) -> Result<Image, AllocError>
    ensures { IfOk result (λ copy. copy ≡ image.now) }
{
    let text = Vec::from_slice(alloc, image.text())?;
    let pool = Vec::from_slice(alloc, image.pool())?;
    Ok(Image::new(text, pool))
}

/// Takes the nearest caller away.
#[tactic(auto, using(crate::proofs::Stacks::reverse_end))]
fn take_caller(callers: &mut Vec<Frame>) -> Frame
    requires { reverse callers.old.items ≢ [] }
    ensures caller { reverse callers.old.items ≡ result ∷ reverse callers.new.items }
    ensures room { vec_len callers.new < vec_capacity callers.new }
{
    callers.pop().unwrap()
}

/// Adds a nearest caller, for which there is room.
#[tactic(auto, using(crate::proofs::Stacks::reverse_end))]
fn give_caller(callers: &mut Vec<Frame>, caller: Frame)
    requires { vec_len callers.old < vec_capacity callers.old }
    ensures { reverse callers.new.items ≡ caller ∷ reverse callers.old.items }
{
    callers.push(caller).unwrap();
}

impl PlainMachine {
    /// The start of a run, with this many locals of main.
    pub fn new(
        alloc: Global,
        image: &Image,
        main_locals: u32,
        stack_end: u32,
    ) -> Result<PlainMachine, AllocError>
        requires { 0x8000 + main_locals ≤ stack_end }
        ensures { IfOk result (λ m. m ≡ started image.now stack_end main_locals) }
    {
        Ok(PlainMachine {
            alloc,
            image: copy_image(alloc, image)?,
            stack_end,
            running: Frame::main(alloc, main_locals)?,
            callers: Vec::new(alloc),
            at: 0,
            lv: 0x8000,
        })
    }

    pub fn address(&self) -> u32
        ensures { result ≡ self.now.at }
    {
        self.at
    }

    /// The word address after the last operand.
    pub fn end(&self) -> u32
        ensures is { result ≡ base (self.now.running ∷ self.now.callers) }
        ensures fits { result ≤ self.now.stack_end }
        ensures least { 0x8000 ≤ result }
    {
        self.lv + self.running.words()
    }

    /// Whether this many more words fit below the stack's end.
    pub fn has_room(&self, words: u32) -> bool
        ensures { result ≡ nat_le (base (self.now.running ∷ self.now.callers) + words) self.now.stack_end }
    {
        words <= self.stack_end - self.end()
    }

    /// The whole instruction at the address.
    pub fn next(&self) -> Option<Instr>
        ensures is { result ≡ instr_at self.now.image.text self.now.at }
        ensures inside { IfSome result (λ _. self.now.at < 65536) }
    {
        decode_at(self.image.text(), self.at)
    }

    pub fn constant(&self, index: u16) -> Option<u32>
        ensures { result ≡ slice_get self.now.image.pool index }
    {
        self.image.pool().get(index as usize).copied()
    }

    /// The last operand.
    pub fn top(&self) -> Option<u32>
        ensures { result ≡ top_of self.now.running.operands }
    {
        self.running.operands.last().copied()
    }

    #[tactic(auto, using(crate::proofs::Placed::placed_pop))]
    pub fn pop(&mut self) -> Option<u32>
        ensures popped { Pops result self.old.running self.new.running }
        ensures rest { self.new ≡ record self.old { running = self.new.running } }
    {
        self.running.operands.pop()
    }

    pub fn push(&mut self, value: u32) -> Result<(), AllocError>
        requires { base (self.old.running ∷ self.old.callers) + 1 ≤ self.old.stack_end }
        ensures ok { OnOk result (self.new ≡ with_operands self.old (value ∷ self.old.running.operands)) }
        ensures err { OnErr result (self.new ≡ self.old) }
    {
        self.running.operands.push(value)?;
        Ok(())
    }

    /// Puts another value in the place of the last operand.
    pub fn replace_top(&mut self, value: u32)
        requires { self.old.running.operands ≢ [] }
        ensures { self.new ≡ with_operands self.old (value ∷ drop 1 self.old.running.operands) }
    {
        set_last(&mut self.running.operands, value);
    }

    /// Exchanges the last two operands, or returns false where there are fewer.
    #[tactic(auto, using(crate::proofs::Placed::placed_swap))]
    pub fn swap(&mut self) -> bool
        ensures swapped { Swaps result self.old.running self.new.running }
        ensures rest { self.new ≡ record self.old { running = self.new.running } }
    {
        if self.running.operands.len() < 2 {
            return false;
        }
        swap_last(&mut self.running.operands);
        true
    }

    /// The value of a local, if the running frame has it and it is set.
    pub fn local(&self, index: u16) -> Option<u32>
        ensures is { result ≡ option_flatten (slice_get self.now.running.locals index) }
        ensures inside { IfSome result (λ _. index < length self.now.running.locals) }
    {
        self.running.locals.get(index as usize).copied().flatten()
    }

    #[tactic(auto, using(crate::proofs::Placed::placed_set))]
    pub fn set_local(&mut self, index: u16, value: u32)
        requires { index < length self.old.running.locals }
        ensures { self.new ≡ with_local self.old index value }
    {
        self.running.locals[index as usize] = Some(value);
    }

    #[tactic(auto, using(crate::proofs::Placed::placed_store))]
    /// Stores to a local that is the running frame's own, or returns false.
    pub fn store(&mut self, index: u16, value: u32) -> bool
        ensures stored { Stores result index value self.old.running self.new.running }
        ensures rest { self.new ≡ record self.old { running = self.new.running } }
    {
        if (self.running.back.is_some() && index == 0)
            || (index as usize) >= self.running.locals.len()
        {
            return false;
        }
        self.running.locals[index as usize] = Some(value);
        true
    }

    /// Goes to another address.
    pub fn go(&mut self, to: u32)
        ensures { self.new ≡ record self.old { at = to } }
    {
        self.at = to;
    }

    /// The return address of a method's frame.
    pub fn back(&self) -> Option<u32>
        ensures { result ≡ self.now.running.back }
    {
        self.running.back
    }

    pub fn has_caller(&self) -> bool
        ensures { IsTrue result ↔ (self.now.callers ≢ []) }
    {
        !self.callers.is_empty()
    }

    /// Whether the last two operands are equal.
    pub fn are_equal(&self) -> bool
        ensures { result ≡ are_equal self.now.running.operands }
    {
        are_last_equal(&self.running.operands)
    }

    /// How many operands the running frame has.
    pub fn depth(&self) -> usize
        ensures { result ≡ length self.now.running.operands }
    {
        self.running.operands.len()
    }

    pub fn method(&self, index: u16) -> Option<Method>
        ensures is { result ≡ method_at self.now.image.text (slice_get self.now.image.pool index) }
        ensures inside { IfSome result (λ m. m.entry + 4 < 65536) }
    {
        self.image.method(index)
    }

    /// Calls a method with the last operands.
    pub fn call(&mut self, method: Method) -> Result<(), AllocError>
        requires object { 0 < method.params }
        requires operands { method.params ≤ length self.old.running.operands }
        requires room { base (self.old.running ∷ self.old.callers) + method.others + 2 ≤ self.old.stack_end }
        requires entry { method.entry + 4 < 65536 }
        requires back { self.old.at + 3 < 2 ^ 32 }
        ensures ok { OnOk result (self.new ≡ in_call self.old method) }
        ensures err { OnErr result (self.new ≡ self.old) }
    {
        let params = method.params - 1;
        let frame = self
            .running
            .called(self.alloc, params, method.others, self.at + 3)?;
        self.callers.reserve(1)?;
        self.running.discard(params as usize + 1);
        self.lv += self.running.words();
        let caller = mem::replace(&mut self.running, frame);
        give_caller(&mut self.callers, caller);
        self.at = method.entry + 4;
        Ok(())
    }

    /// Returns a value to the caller, at this address.
    pub fn leave(&mut self, back: u32, value: u32) -> Result<(), AllocError>
        requires caller { self.old.callers ≢ [] }
        requires method { self.old.running.back ≢ None }
        ensures ok { OnOk result (Returns back value self.old self.new) }
        ensures program { KeepsProgram self.old self.new }
        ensures err { OnErr result (self.new ≡ self.old) }
    {
        let mut caller = take_caller(&mut self.callers);
        let words = caller.words();
        if let Err(failed) = caller.operands.push(value) {
            give_caller(&mut self.callers, caller);
            return Err(failed.into());
        }
        self.lv -= words;
        self.running = caller;
        self.at = back;
        Ok(())
    }
}
