//! The board of each machine over a verified image, with any microprogram.

ghost use Rattle.std.specs.Prelude.{◌≡◌, ◌<◌, IfOk};
ghost use Rattle.mic_words.specs.declared.machine.Machine.TheVariants as machines;
ghost use Rattle.mic1_datapath.specs.Prelude.{mic1_meaning};
ghost use Rattle.mic1_datapath.specs.View.{micro_of as micro_of1};
ghost use Rattle.mic2_datapath.specs.Prelude.{mic2_meaning};
ghost use Rattle.mic2_datapath.specs.View.{micro_of as micro_of2};
ghost use Rattle.ijvm_simulation.specs.Prelude.{IsAtReset};

use ijvm_simulation::reset_board;
use ijvm_verifier::VerifiedImage;
use mic_clock::Board;
use mic1_datapath::Mic1;
use mic2_datapath::Mic2;
use micro_word::Store;
use std::alloc::{AllocError, Global};

/// A Mic-1 at its reset over a control store whose microprogram begins at the entry, with a verified image in its memory.
pub fn board1(
    alloc: Global,
    image: &VerifiedImage,
    store: Store,
    entry: u16,
) -> Result<Board<Mic1>, AllocError>
    requires machine { store.machine ≡ machines.Mic1 }
    requires entry { entry < 512 }
    ensures reset { IfOk result (IsAtReset micro_of1 mic1_meaning entry image.now) }
    ensures store { IfOk result (λ board. board.store ≡ store) }
{
    reset_board(alloc, Mic1::new(), store, entry, image)
}

/// A Mic-2 at its reset over a control store whose microprogram begins at the entry, with a verified image in its memory.
pub fn board2(
    alloc: Global,
    image: &VerifiedImage,
    store: Store,
    entry: u16,
) -> Result<Board<Mic2>, AllocError>
    requires machine { store.machine ≡ machines.Mic2 }
    requires entry { entry < 512 }
    ensures reset { IfOk result (IsAtReset micro_of2 mic2_meaning entry image.now) }
    ensures store { IfOk result (λ board. board.store ≡ store) }
{
    reset_board(alloc, Mic2::new(), store, entry, image)
}
