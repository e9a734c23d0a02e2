//! The board of Mic-3 over a verified image, with any microprogram of Mic-2.

ghost use Rattle.std.specs.Prelude.{◌≡◌, ◌<◌, IfOk};
ghost use Rattle.mic_words.specs.declared.machine.Machine.TheVariants as machines;
ghost use Rattle.mic3_datapath.specs.Prelude.{mic3_meaning, pipeline_of};
ghost use Rattle.ijvm_simulation.specs.Prelude.{IsAtReset};

use ijvm_simulation::reset_board;
use ijvm_verifier::VerifiedImage;
use mic_clock::Board;
use mic3_datapath::Mic3;
use micro_word::Store;
use std::alloc::{AllocError, Global};

/// A Mic-3 at its reset over a control store whose microprogram begins at the entry, with a verified image in its memory.
pub fn board3(
    alloc: Global,
    image: &VerifiedImage,
    store: Store,
    entry: u16,
) -> Result<Board<Mic3>, AllocError>
    requires machine { store.machine ≡ machines.Mic2 }
    requires entry { entry < 512 }
    ensures reset { IfOk result (IsAtReset pipeline_of mic3_meaning entry image.now) }
    ensures store { IfOk result (λ board. board.store ≡ store) }
{
    reset_board(alloc, Mic3::new(), store, entry, image)
}
