//! A frame of the plain machine.

ghost use Rattle.std.specs.Prelude.{◌≡◌, ◌≢◌, ◌+◌, ◌<◌, ◌≤◌, ◌^◌, [], ◌∷◌, ◌++◌, length, reverse, replicate, map, take, drop, Some, None, IfOk, OnOk, vec_len};
ghost use Rattle.ijvm_meaning.specs.Prelude.{Frame as FrameView, kept_words, are_equal, called, onto};
ghost use Rattle.ijvm_reference.specs.Machine.{IsSwapped};

use std::alloc::{AllocError, Global};
use std::marker::Model;

/// Its locals, its operands, the last one at the end, and the return address of a method's frame.
#[derive(Drop)]
pub struct Frame {
    pub locals: Vec<Option<u32>>,
    pub operands: Vec<u32>,
    pub back: Option<u32>,
}

impl Model for Frame {
    ghost Value = { FrameView };

    ghost view = { λ f. record { locals = f.locals.items; operands = reverse f.operands.items; back = f.back } };
}

/// Puts another value in the place of the last.
#[tactic(auto, using(crate::proofs::Stacks::reverse_end))]
pub fn set_last(values: &mut Vec<u32>, value: u32)
    requires { reverse values.old.items ≢ [] }
    ensures { reverse values.new.items ≡ value ∷ drop 1 (reverse values.old.items) }
{
    values.pop().unwrap();
    values.push(value).unwrap();
}

/// Whether the last two are equal.
#[tactic(auto, using(crate::proofs::Stacks::are_equal_last, crate::proofs::Stacks::are_equal_few))]
pub fn are_last_equal(values: &[u32]) -> bool
    ensures { result ≡ are_equal (reverse values.now) }
{
    if values.len() < 2 {
        return false;
    }
    let last = values.len() - 1;
    values[last - 1] == values[last]
}

/// Exchanges the last two.
pub fn swap_last(values: &mut Vec<u32>)
    requires { 2 ≤ vec_len values.old }
    ensures { IsSwapped (reverse values.old.items) (reverse values.new.items) }
{
    let top = values.pop().unwrap();
    let second = values.pop().unwrap();
    values.push(top).unwrap();
    values.push(second).unwrap();
}

#[tactic(auto, using(crate::proofs::Stacks::drop_reverse))]
fn drop_last(values: &mut Vec<u32>, count: usize)
    requires { count ≤ vec_len values.old }
    ensures { reverse values.new.items ≡ drop count (reverse values.old.items) }
{
    values.truncate(values.len() - count);
}

/// Appends locals that are set.
fn push_set(locals: &mut Vec<Option<u32>>, values: &[u32]) -> Result<(), AllocError>
    ensures { OnOk result (locals.new.items ≡ locals.old.items ++ map Some values.now) }
{
    for value in values {
        locals.push(Some(*value))?;
    }
    Ok(())
}

/// Appends locals that are not set.
fn push_unset(locals: &mut Vec<Option<u32>>, count: u16) -> Result<(), AllocError>
    ensures { OnOk result (locals.new.items ≡ locals.old.items ++ replicate count None) }
{
    for _ in 0..count {
        locals.push(None)?;
    }
    Ok(())
}

/// The locals of a method that is called with the last operands.
fn method_locals(
    alloc: Global,
    operands: &[u32],
    params: u16,
    others: u16,
) -> Result<Vec<Option<u32>>, AllocError>
    requires { params ≤ length operands.now }
    ensures { IfOk result (λ made. made.items ≡ None ∷ onto (take params (reverse operands.now)) (replicate others None)) }
{
    let from = operands.len() - params as usize;
    let mut locals = Vec::with_capacity(alloc, 1 + params as usize + others as usize)?;
    locals.push(None)?;
    push_set(&mut locals, &operands[from..])?;
    push_unset(&mut locals, others)?;
    Ok(locals)
}

impl Frame {
    /// Main's frame, whose locals are 0.
    pub fn main(alloc: Global, locals: u32) -> Result<Frame, AllocError>
        ensures { IfOk result (λ f. (f.locals ≡ replicate locals (Some 0)) × (f.operands ≡ []) × (f.back ≡ None)) }
    {
        Ok(Frame {
            locals: vec![in alloc; Some(0); locals as usize]?,
            operands: Vec::new(alloc),
            back: None,
        })
    }

    /// How many words of memory it takes.
    pub fn words(&self) -> u32
        requires { length self.now.locals + 2 + length self.now.operands < 2 ^ 32 }
        ensures { result ≡ length self.now.locals + kept_words self.now.back + length self.now.operands }
    {
        let kept = if self.back.is_some() { 2 } else { 0 };
        self.locals.len() as u32 + kept + self.operands.len() as u32
    }

    /// The frame of a method that is called with the last operands.
    pub fn called(
        &self,
        alloc: Global,
        params: u16,
        others: u16,
        back: u32,
    ) -> Result<Frame, AllocError>
        requires { params ≤ length self.now.operands }
        ensures { IfOk result (λ f. f ≡ called (take params self.now.operands) others back) }
    {
        let locals = method_locals(alloc, &self.operands, params, others)?;
        Ok(Frame {
            locals,
            operands: Vec::new(alloc),
            back: Some(back),
        })
    }

    /// Takes the last operands away.
    pub fn discard(&mut self, count: usize)
        requires { count ≤ length self.old.operands }
        ensures { self.new ≡ record self.old { operands = drop count self.old.operands } }
    {
        drop_last(&mut self.operands, count);
    }
}
