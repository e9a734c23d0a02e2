//! Mic-3 as an interpreter of IJVM.

ghost use Rattle.std.specs.Prelude.{◌≡◌, ◌≤◌, ◌^◌, Some, IfOk, OnErr, IsSome};
ghost use Rattle.console_port.specs.Prelude.{SinkGoesOn};
ghost use Rattle.ijvm_simulation.specs.Prelude.{RunsAsDefined, IsCutWhereReadFails, IsCutWhereWriteFails, EndsByCause};
ghost use Rattle.mic3_interpreter.specs.Interpretation.{mic3};

use ijvm_simulation::{Interpreter, run_image};
use ijvm_verifier::VerifiedImage;
use mal_shipped::shipped_store;
use mic_base::{Sink, Source};
use mic_clock::{Board, End};
use mic2_fetch_unit::queue_law;
use mic3_datapath::Mic3;
use micro_word::{Machine, Store};
use std::alloc::{AllocError, Global};

/// The address of Main1, where a run begins.
const MAIN1: u16 = 0x002;

/// Mic-3 with the microprogram that ships for Mic-2.
pub struct Mic3Interpreter;

impl Interpreter for Mic3Interpreter {
    ghost use Rattle.mic_words.specs.declared.machine.Machine.TheVariants as machines;
    ghost use Rattle.mic3_interpreter.specs.Timing.{mic3_timing};
    ghost use Rattle.mal_shipped.specs.Prelude.{HasShipped};

    type Machine = Mic3;

    ghost IsShipped = { HasShipped machines.Mic2 };

    ghost entry = { 0x002 };

    ghost timing = { mic3_timing };

    fn entry() -> u16 {
        MAIN1
    }

    fn machine() -> Mic3 {
        Mic3::new()
    }

    fn store(alloc: Global) -> Result<Store, AllocError> {
        shipped_store(alloc, Machine::Mic2)
    }

    fn law() {
        queue_law();
    }
}

/// Runs a verified image on a Mic-3, from its reset to its end. Memory can run out only before the first cycle.
pub fn run_image3<S: Source, K: Sink>(
    alloc: Global,
    image: &VerifiedImage,
    bound: u64,
    source: &mut S,
    sink: &mut K,
) -> Result<Board<Mic3>, AllocError>
    requires { bound ≤ 2 ^ 62 }
    ensures ended { IfOk result (λ board. IsSome board.end) }
    ensures run { RunsAsDefined mic3 image.now bound S.left K.held source.old sink.old source.new sink.new result }
    ensures read { IsCutWhereReadFails mic3 image.now bound S.left K.held source.old sink.old source.new sink.new result }
    ensures write { IsCutWhereWriteFails mic3 image.now bound S.left K.held source.old sink.old source.new sink.new result }
    ensures sink { IfOk result (λ board. SinkGoesOn K.held K.passed (board.end ≡ Some End.WriteFault) sink.old sink.new) }
    ensures cause { EndsByCause S.faults K.faults source.old sink.old source.new sink.new result }
    ensures none { OnErr result ((source.new ≡ source.old) × (sink.new ≡ sink.old)) }
{
    run_image::<Mic3Interpreter, S, K>(alloc, image, bound, source, sink)
}
