//! What is asked of a machine that interprets IJVM.

ghost use Rattle.std.specs.Prelude.{◌≡◌, ◌<◌, ℕ, List, IfOk};
ghost use Rattle.ijvm_meaning.specs.Prelude.{Timing};
ghost use Rattle.ijvm_simulation.specs.Promises.{KeepsLaw, BootsToMain, KeepsGiven};

use mic_clock::Clocked;
use micro_word::Store;
use std::alloc::{AllocError, Global};

/// A clocked machine with the store that ships for it: together they interpret IJVM.
pub trait Interpreter {
    type Machine: Clocked;

    /// The words of the control store that ships.
    ghost IsShipped: { List ℕ → Type 0 };

    /// The address where a run begins.
    ghost entry: { ℕ };

    /// What it spends on a boot and on each instruction.
    ghost timing: { Timing };

    fn entry() -> u16
        ensures value { result ≡ entry }
        ensures small { result < 512 };

    /// A machine, in any state.
    fn machine() -> Self::Machine;

    /// The control store that ships.
    fn store(alloc: Global) -> Result<Store, AllocError>
        ensures machine { IfOk result (λ store. store.machine ≡ Self.Machine.meaning.machine) }
        ensures shipped { IfOk result (λ store. IsShipped store.words) };

    /// What each instruction takes over a verified image, how a run boots, and that what is given stays.
    fn law()
        ensures law { KeepsLaw Self.Machine.meaning Self.Machine.IsReady IsShipped entry timing }
        ensures boots { BootsToMain Self.Machine.meaning Self.Machine.IsReady IsShipped entry timing }
        ensures grows { KeepsGiven Self.Machine.meaning };
}
