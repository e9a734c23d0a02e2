//! Mic-1 as an interpreter of IJVM.

ghost use Rattle.std.specs.Prelude.{◌≡◌, ◌≤◌, ◌^◌, Some, IfOk, OnErr, IsSome};
ghost use Rattle.console_port.specs.Prelude.{SinkGoesOn};
ghost use Rattle.ijvm_simulation.specs.Prelude.{RunsAsDefined, IsCutWhereReadFails, IsCutWhereWriteFails, EndsByCause};
ghost use Rattle.mic1_interpreter.specs.Interpretation.{mic1};

use ijvm_simulation::{Interpreter, run_image};
use ijvm_verifier::VerifiedImage;
use mal_shipped::shipped_store;
use mic_base::{Sink, Source};
use mic_clock::{Board, End};
use mic1_datapath::Mic1;
use micro_word::{Machine, Store};
use std::alloc::{AllocError, Global};

/// The address of Main1, where a run begins.
const MAIN1: u16 = 0x002;

/// Mic-1 with the microprogram that ships for it.
pub struct Mic1Interpreter;

impl Interpreter for Mic1Interpreter {
    ghost use Rattle.mic_words.specs.declared.machine.Machine.TheVariants as machines;
    ghost use Rattle.ijvm_meaning.specs.Prelude.{timing_of};
    ghost use Rattle.mal_shipped.specs.Prelude.{HasShipped};

    type Machine = Mic1;

    ghost IsShipped = { HasShipped machines.Mic1 };

    ghost entry = { 0x002 };

    ghost timing = { timing_of machines.Mic1 };

    fn entry() -> u16 {
        MAIN1
    }

    fn machine() -> Mic1 {
        Mic1::new()
    }

    fn store(alloc: Global) -> Result<Store, AllocError> {
        shipped_store(alloc, Machine::Mic1)
    }

    fn law() {}
}

/// Runs a verified image on a Mic-1, from its reset to its end. Memory can run out only before the first cycle.
pub fn run_image1<S: Source, K: Sink>(
    alloc: Global,
    image: &VerifiedImage,
    bound: u64,
    source: &mut S,
    sink: &mut K,
) -> Result<Board<Mic1>, AllocError>
    requires { bound ≤ 2 ^ 62 }
    ensures ended { IfOk result (λ board. IsSome board.end) }
    ensures run { RunsAsDefined mic1 image.now bound S.left K.held source.old sink.old source.new sink.new result }
    ensures read { IsCutWhereReadFails mic1 image.now bound S.left K.held source.old sink.old source.new sink.new result }
    ensures write { IsCutWhereWriteFails mic1 image.now bound S.left K.held source.old sink.old source.new sink.new result }
    ensures sink { IfOk result (λ board. SinkGoesOn K.held K.passed (board.end ≡ Some End.WriteFault) sink.old sink.new) }
    ensures cause { EndsByCause S.faults K.faults source.old sink.old source.new sink.new result }
    ensures none { OnErr result ((source.new ≡ source.old) × (sink.new ≡ sink.old)) }
{
    run_image::<Mic1Interpreter, S, K>(alloc, image, bound, source, sink)
}
