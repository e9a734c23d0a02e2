//! What the next instruction costs.

ghost use Rattle.std.specs.Prelude.{◌≡◌, ◌≤◌, []};
ghost use Rattle.ijvm_meaning.specs.Prelude.{column, timing_of, is_taken, entry_of, next_cost};
ghost use Rattle.ijvm_reference.specs.Machine.{state_of};

use crate::frames::Frames;
use crate::machine::PlainMachine;
use ijvm_instr::{Cost, Instr, Row};
use mic_words::Machine;

fn column(row: Row, machine: Machine) -> Cost
    ensures { result ≡ column machine row }
{
    match machine {
        Machine::Mic1 => row.mic1,
        Machine::Mic2 => row.mic2,
    }
}

/// Whether a branch is taken.
fn is_taken(plain: &PlainMachine, instr: Instr) -> bool
    ensures { result ≡ is_taken instr plain.now.running.operands }
{
    match instr {
        Instr::Ifeq(_) => match plain.top() {
            Some(top) => top == 0,
            None => false,
        },
        Instr::Iflt(_) => match plain.top() {
            Some(top) => top >= 0x8000_0000,
            None => false,
        },
        Instr::IfIcmpeq(_) => plain.are_equal(),
        _ => false,
    }
}

/// The entry of the method that a call calls.
fn entry_of(plain: &PlainMachine, instr: Instr) -> u32
    ensures { result ≡ entry_of plain.now.image.pool instr }
{
    match instr {
        Instr::Invokevirtual(index) => match plain.constant(index) {
            Some(entry) => entry,
            None => 0,
        },
        _ => 0,
    }
}

impl Frames {
    /// The cycles of the next instruction.
    #[tactic(auto, using(crate::proofs::Costs::next_cost_most))]
    pub fn cost(&self, machine: Machine) -> u64
        ensures is { result ≡ next_cost self.now.image (timing_of machine) (state_of self.now [] []) }
        ensures most { result ≤ 23 }
    {
        let plain = &self.machine;
        let Some(instr) = plain.next() else {
            return 0;
        };
        match column(instr.row(), machine) {
            Cost::Always(cycles) => cycles,
            Cost::IfTaken { taken, not } => if is_taken(plain, instr) { taken } else { not },
            Cost::ByEntry { early, late } => if entry_of(plain, instr) % 4 == 3 {
                late
            } else {
                early
            },
        }
    }
}
