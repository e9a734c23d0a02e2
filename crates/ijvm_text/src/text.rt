//! A text as it grows, and the first jump in it that leads too far.

ghost use Rattle.std.specs.Prelude.{◌≡◌, ◌<◌, ◌≤◌, ◌^◌, ◌∷◌, [], false, None, length, IfOk, OnOk};
ghost use Rattle.std.specs.Option.{option_or};
ghost use Rattle.ijvm_instr.specs.Prelude.{first_far, is_far};
ghost use Rattle.ijvm_program.specs.Prelude.{jump_by};
ghost use Rattle.ijvm_text.specs.Adds.{AddsCode, AddsJump, AddsText, IsCode, Puts, far_of};

use ijvm_instr::{Instr, is_far, push_instr};
use ijvm_program::Jump;
use std::alloc::{AllocError, Global};

/// A jump that leads too far: its line in the source, and how far it leads, in bytes.
#[derive(Clone, Copy, Debug, PartialEq, Eq)]
pub struct FarJump {
    pub line: u32,
    pub distance: i32,
}

/// The bytes of a text. A jump that leads too far has 0 as its operand.
#[derive(Drop)]
pub struct Text {
    pub bytes: Vec<u8>,
    /// The first jump that leads too far.
    pub far: Option<FarJump>,
}

/// Appends the bytes of an instruction.
pub fn put(bytes: &mut Vec<u8>, instr: Instr) -> Result<(), AllocError>
    ensures { OnOk result (Puts bytes.old bytes.new (instr ∷ [])) }
{
    push_instr(bytes, instr)
}

/// The distance as an operand, where it fits one.
fn offset_of(distance: i32) -> i16
    ensures { is_far distance ≡ false → result ≡ distance }
{
    if is_far(distance) { 0 } else { distance as i16 }
}

fn jump_by(jump: Jump, offset: i16) -> Instr
    ensures { result ≡ jump_by jump offset }
{
    match jump {
        Jump::Ifeq => Instr::Ifeq(offset),
        Jump::Iflt => Instr::Iflt(offset),
        Jump::IfIcmpeq => Instr::IfIcmpeq(offset),
        Jump::Goto => Instr::Goto(offset),
    }
}

impl Text {
    pub fn new(alloc: Global) -> Text
        ensures empty { result.bytes.items ≡ [] }
        ensures near { result.far ≡ None }
        ensures nothing { IsCode result [] [] }
    {
        Text {
            bytes: Vec::new(alloc),
            far: None,
        }
    }

    /// How many bytes there are. A text of 2^30 bytes or more may be reported as out of memory.
    pub fn size(&self) -> Result<u32, AllocError>
        ensures is { IfOk result (λ n. n ≡ length self.now.bytes.items) }
        ensures few { IfOk result (λ n. n < 2 ^ 30) }
    {
        let size = self.bytes.len();
        if size >= 1 << 30 {
            return Err(AllocError);
        }
        Ok(size as u32)
    }

    /// Appends an instruction that is no jump.
    pub fn add(&mut self, instr: Instr) -> Result<(), AllocError>
        ensures { OnOk result (AddsCode self.old self.new (instr ∷ []) []) }
    {
        put(&mut self.bytes, instr)
    }

    /// Keeps a jump if it is the first that leads too far.
    fn keep_if_far(&mut self, line: u32, distance: i32)
        ensures far { far_of self.new.far ≡ option_or (far_of self.old.far) (first_far ((line, distance) ∷ [])) }
        ensures bytes { self.new.bytes ≡ self.old.bytes }
    {
        if is_far(distance) {
            self.far = self.far.or(Some(FarJump { line, distance }));
        }
    }

    /// Appends a jump, and keeps it if it is the first that leads too far.
    pub fn add_jump(&mut self, jump: Jump, line: u32, distance: i32) -> Result<(), AllocError>
        ensures { OnOk result (AddsJump self.old self.new jump line distance) }
    {
        self.keep_if_far(line, distance);
        put(&mut self.bytes, jump_by(jump, offset_of(distance)))
    }

    /// Appends another text.
    pub fn add_text(&mut self, other: &Text) -> Result<(), AllocError>
        ensures adds { OnOk result (AddsText self.old self.new other.now) }
        ensures grows { OnOk result (length self.old.bytes.items ≤ length self.new.bytes.items) }
    {
        self.bytes.extend_from_slice(other.bytes.as_slice())?;
        self.far = self.far.or(other.far);
        Ok(())
    }
}
