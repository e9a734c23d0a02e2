//! A board at its reset, over a verified image.

ghost use Rattle.std.specs.Prelude.{◌≡◌, ◌<◌, length, IfOk};
ghost use Rattle.ijvm_image.specs.Prelude.{IsWithinLimits, IsImage};
ghost use Rattle.ijvm_simulation.specs.Reset.{IsAtReset};

use console_port::{Bus, FRAME};
use ijvm_verifier::VerifiedImage;
use mic_clock::{Board, Clocked};
use micro_word::Store;
use std::alloc::{AllocError, Global};

/// A text and a pool within their limits are an image: their types bound the bytes and the words.
fn are_parts(text: &[u8], pool: &[u32])
    requires { IsWithinLimits text.now pool.now }
    ensures { IsImage (record { text = text.now; pool = pool.now }) }
{}

/// A verified image is of bytes and words, within its limits.
fn is_image(program: &VerifiedImage)
    ensures { IsImage program.now.image }
{
    are_parts(program.image().text(), program.image().pool());
}

/// A machine at its reset with this control store, and a verified image loaded. SP is the place before the first operand of main.
pub fn reset_board<M: Clocked + Drop>(
    alloc: Global,
    machine: M,
    store: Store,
    entry: u16,
    program: &VerifiedImage,
) -> Result<Board<M>, AllocError>
    requires machine { store.machine ≡ M.meaning.machine }
    requires entry { entry < 512 }
    ensures reset { IfOk result (IsAtReset M.state M.meaning entry program.now) }
    ensures store { IfOk result (λ board. board.store ≡ store) }
    ensures memory { IfOk result (λ board. length board.bus.words ≡ program.now.map.stack_end) }
{
    let mut bus = Bus::new(alloc, program.map())?;
    bus.load(program.image().text(), program.image().pool());
    is_image(program);
    let sp = FRAME + program.main_locals() - 1;
    Ok(Board::new(machine, store, entry, sp, bus))
}
