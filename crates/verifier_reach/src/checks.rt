//! What can be wrong at one reached address.

ghost use Rattle.std.specs.Prelude.{◌≡◌, ◌≢◌, ◌+◌, ◌<◌, ◌≤◌, ◌^◌, length, ℕ, ℤ, Some, None, IfOk, IfErr, OnOk};
ghost use Rattle.ijvm_instr.specs.Prelude.{instr_at, row_of, size_of, target};
ghost use Rattle.ijvm_image.specs.Prelude.{params, others};
ghost use Rattle.verifier_facts.specs.Prelude.{HasRow, IsWhole, HasConstant, HasNext, HasJump, need_of, Names, IsWrongAt};
ghost use Rattle.verifier_reach.specs.Search.{kept_at, IsChecked, HasLocal};

use crate::code::{constant_at, decode, others_of, params_of, text_len};
use crate::kept::Kept;
use ijvm_image::Image;
use ijvm_instr::{Flow, Instr, Row, target_of};
use verifier_facts::VerifyError;

/// An instruction in whose place nothing is wrong, and the operands that it needs.
#[derive(Clone, Copy)]
pub struct Found {
    pub row: Row,
    pub need: u32,
}

fn check_constant(image: &Image, here: Kept, at: u32, row: Row) -> Result<(), VerifyError>
    requires row { HasRow image.now.text at row }
    ensures ok { OnOk result (HasConstant image.now.pool row.constant) }
    ensures err { IfErr result (λ e. IsWrongAt image.now (kept_at here at) e) }
{
    match row.constant {
        None => Ok(()),
        Some(index) => match constant_at(image, index) {
            Some(_) => Ok(()),
            None => Err(VerifyError::BadConstant(at, index)),
        },
    }
}

/// The parameters of the method that this constant names.
fn called_params(
    image: &Image,
    here: Kept,
    at: u32,
    row: Row,
    index: u16,
) -> Result<u32, VerifyError>
    requires row { HasRow image.now.text at row }
    requires call { row.flow ≡ Flow.Call index }
    requires constant { HasConstant image.now.pool row.constant }
    ensures ok { IfOk result (λ need. need_of image.now row.needs row.flow ≡ Some need) }
    ensures small { IfOk result (λ need. need < 2 ^ 16) }
    ensures err { IfErr result (λ e. IsWrongAt image.now (kept_at here at) e) }
{
    match constant_at(image, index) {
        None => unreachable!(),
        Some(entry) => if u64::from(entry) + 4 < u64::from(text_len(image)) {
            Ok(params_of(image, entry))
        } else {
            Err(VerifyError::BadEntry(index))
        },
    }
}

/// The operands that the instruction needs.
fn needed(image: &Image, here: Kept, at: u32, row: Row) -> Result<u32, VerifyError>
    requires row { HasRow image.now.text at row }
    requires constant { HasConstant image.now.pool row.constant }
    ensures ok { IfOk result (λ need. need_of image.now row.needs row.flow ≡ Some need) }
    ensures err { IfErr result (λ e. IsWrongAt image.now (kept_at here at) e) }
{
    match row.flow {
        Flow::Call(index) => called_params(image, here, at, row, index),
        Flow::Next => Ok(row.needs),
        Flow::Jump(_) => Ok(row.needs),
        Flow::Branch(_) => Ok(row.needs),
        Flow::Return => Ok(row.needs),
        Flow::End => Ok(row.needs),
    }
}

fn check_depth(image: &Image, here: Kept, at: u32, row: Row, need: u32) -> Result<(), VerifyError>
    requires row { HasRow image.now.text at row }
    requires need { need_of image.now row.needs row.flow ≡ Some need }
    ensures ok { OnOk result (need ≤ here.depth) }
    ensures err { IfErr result (λ e. IsWrongAt image.now (kept_at here at) e) }
{
    if need <= here.depth {
        return Ok(());
    }
    match row.flow {
        Flow::Call(_) => Err(VerifyError::TooFewArguments(at, here.depth, need)),
        _ => Err(VerifyError::Underflow(at)),
    }
}

fn check_next(image: &Image, here: Kept, at: u32, row: Row) -> Result<(), VerifyError>
    requires row { HasRow image.now.text at row }
    requires whole { at + size_of row ≤ length image.now.text }
    ensures ok { OnOk result (HasNext row.flow → at + size_of row < length image.now.text) }
    ensures err { IfErr result (λ e. IsWrongAt image.now (kept_at here at) e) }
{
    let end = text_len(image);
    if at + row.size() < end {
        return Ok(());
    }
    match row.flow {
        Flow::Call(_) => Err(VerifyError::FallsOff(at)),
        Flow::Next => Err(VerifyError::FallsOff(at)),
        Flow::Branch(_) => Err(VerifyError::FallsOff(at)),
        Flow::Jump(_) => Ok(()),
        Flow::Return => Ok(()),
        Flow::End => Ok(()),
    }
}

fn check_jump(image: &Image, here: Kept, at: u32, row: Row, offset: i16) -> Result<(), VerifyError>
    requires row { HasRow image.now.text at row }
    requires jumps { HasJump row.flow offset }
    ensures ok { OnOk result (target at offset < length image.now.text) }
    ensures err { IfErr result (λ e. IsWrongAt image.now (kept_at here at) e) }
{
    if target_of(at, offset) < text_len(image) {
        Ok(())
    } else {
        Err(VerifyError::BadTarget(at))
    }
}

fn check_target(image: &Image, here: Kept, at: u32, row: Row) -> Result<(), VerifyError>
    requires row { HasRow image.now.text at row }
    ensures ok { OnOk result ((o : ℤ) → HasJump row.flow o → target at o < length image.now.text) }
    ensures err { IfErr result (λ e. IsWrongAt image.now (kept_at here at) e) }
{
    match row.flow {
        Flow::Jump(offset) => check_jump(image, here, at, row, offset),
        Flow::Branch(offset) => check_jump(image, here, at, row, offset),
        Flow::Call(_) => Ok(()),
        Flow::Next => Ok(()),
        Flow::Return => Ok(()),
        Flow::End => Ok(()),
    }
}

/// The local that the instruction names is one of the method's that it may name.
fn check_local(
    image: &Image,
    here: Kept,
    at: u32,
    row: Row,
    entry: u32,
    local: u16,
) -> Result<(), VerifyError>
    requires row { HasRow image.now.text at row }
    requires unit { here.unit ≡ Some entry }
    requires names { Names row local }
    ensures ok { OnOk result ((0 < local) × (local < params image.now.text entry + others image.now.text entry)) }
    ensures err { IfErr result (λ e. IsWrongAt image.now (kept_at here at) e) }
{
    if local == 0 {
        return Err(VerifyError::LinkSlot(at));
    }
    if u32::from(local) < params_of(image, entry) + others_of(image, entry) {
        Ok(())
    } else {
        Err(VerifyError::BadLocal(at, local))
    }
}

fn check_reads(image: &Image, here: Kept, at: u32, row: Row, entry: u32) -> Result<(), VerifyError>
    requires row { HasRow image.now.text at row }
    requires unit { here.unit ≡ Some entry }
    ensures ok { OnOk result ((k : ℕ) → row.reads ≡ Some k → HasLocal image.now entry k) }
    ensures err { IfErr result (λ e. IsWrongAt image.now (kept_at here at) e) }
{
    match row.reads {
        Some(local) => check_local(image, here, at, row, entry, local),
        None => Ok(()),
    }
}

fn check_stores(image: &Image, here: Kept, at: u32, row: Row, entry: u32) -> Result<(), VerifyError>
    requires row { HasRow image.now.text at row }
    requires unit { here.unit ≡ Some entry }
    ensures ok { OnOk result ((k : ℕ) → row.stores ≡ Some k → HasLocal image.now entry k) }
    ensures err { IfErr result (λ e. IsWrongAt image.now (kept_at here at) e) }
{
    match row.stores {
        Some(local) => check_local(image, here, at, row, entry, local),
        None => Ok(()),
    }
}

fn check_unit(image: &Image, here: Kept, at: u32, row: Row) -> Result<(), VerifyError>
    requires row { HasRow image.now.text at row }
    ensures header { OnOk result ((e : ℕ) → here.unit ≡ Some e → params image.now.text e ≢ 0) }
    ensures locals { OnOk result ((e k : ℕ) → here.unit ≡ Some e → Names row k → HasLocal image.now e k) }
    ensures returns { OnOk result (here.unit ≡ None → row.flow ≢ Flow.Return) }
    ensures err { IfErr result (λ e. IsWrongAt image.now (kept_at here at) e) }
{
    match here.unit {
        None => match row.flow {
            Flow::Return => Err(VerifyError::ReturnInMain(at)),
            _ => Ok(()),
        },
        Some(entry) => {
            if params_of(image, entry) == 0 {
                return Err(VerifyError::BadHeader(entry));
            }
            check_reads(image, here, at, row, entry)?;
            check_stores(image, here, at, row, entry)?;
            Ok(())
        }
    }
}

fn check_instr(image: &Image, here: Kept, at: u32, instr: Instr) -> Result<Found, VerifyError>
    requires code { instr_at image.now.text at ≡ Some instr }
    requires whole { IsWhole image.now.text at (row_of instr) }
    ensures ok { IfOk result (λ found. IsChecked image.now (kept_at here at) found.row found.need) }
    ensures few { IfOk result (λ found. found.row.gives ≤ 2) }
    ensures err { IfErr result (λ e. IsWrongAt image.now (kept_at here at) e) }
{
    let row = instr.row();
    check_constant(image, here, at, row)?;
    let need = needed(image, here, at, row)?;
    check_depth(image, here, at, row, need)?;
    check_next(image, here, at, row)?;
    check_target(image, here, at, row)?;
    check_unit(image, here, at, row)?;
    Ok(Found { row, need })
}

/// The instruction at a reached address and the operands that it needs, if nothing is wrong there.
pub fn check_at(image: &Image, here: Kept, at: u32) -> Result<Found, VerifyError>
    ensures ok { IfOk result (λ found. IsChecked image.now (kept_at here at) found.row found.need) }
    ensures few { IfOk result (λ found. found.row.gives ≤ 2) }
    ensures err { IfErr result (λ e. IsWrongAt image.now (kept_at here at) e) }
{
    match decode(image, at) {
        None => Err(VerifyError::BadCode(at)),
        Some(instr) => check_instr(image, here, at, instr),
    }
}
