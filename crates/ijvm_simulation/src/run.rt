//! The run of a verified image on a machine, from its reset to its end.

ghost use Rattle.std.specs.Prelude.{◌≡◌, ◌<◌, ◌≤◌, ◌^◌, Some, IfOk, OnErr, IsSome};
ghost use Rattle.ijvm_simulation.specs.Common.{SinkGoesOn};
ghost use Rattle.ijvm_simulation.specs.Interpretation.{interpretation, interpretation_with, Reading};
ghost use Rattle.ijvm_simulation.specs.Answers.{RunsAsDefined, IsCutWhereReadFails, IsCutWhereWriteFails, EndsByCause};
ghost use Rattle.ijvm_simulation.specs.Promises.{Interprets};
ghost use Rattle.ijvm_simulation.specs.Reset.{IsAtReset};

use crate::interpreter::Interpreter;
use crate::readiness::Readiness;
use crate::reset::reset_board;
use ijvm_meaning::runs_keep_words;
use ijvm_verifier::VerifiedImage;
use mic_base::{Sink, Source};
use mic_clock::{Board, Clocked, End};
use micro_word::Store;
use std::alloc::{AllocError, Global};
use verifier_facts::accepted_images_keep_sound;

/// The machine of an interpreter at its reset, over the store that ships, with a verified image loaded.
pub fn shipped_board<I: Interpreter>(
    alloc: Global,
    image: &VerifiedImage,
) -> Result<Board<I::Machine>, AllocError>
where
    I::Machine: Drop,
    ensures reset { IfOk result (IsAtReset I.Machine.state I.Machine.meaning I.entry image.now) }
    ensures store { IfOk result (λ board. I.IsShipped board.store.words) }
{
    let store = I::store(alloc)?;
    reset_board(alloc, I::machine(), store, I::entry(), image)
}

/// Runs a verified image on a machine with this control store, from its reset at this entry to its end. Memory can run
/// out only before the first cycle. The run is as defined where the machine interprets IJVM with this store and entry.
pub fn run_with<M: Clocked + Drop, R: Readiness, S: Source, K: Sink>(
    alloc: Global,
    machine: M,
    store: Store,
    entry: u16,
    image: &VerifiedImage,
    bound: u64,
    source: &mut S,
    sink: &mut K,
) -> Result<Board<M>, AllocError>
    requires machine { store.machine ≡ M.meaning.machine }
    requires entry { entry < 512 }
    requires bound { bound ≤ 2 ^ 62 }
    ensures ended { IfOk result (λ board. IsSome board.end) }
    ensures run { (reading : Reading M.State R.Seen) → let i = interpretation_with M.state M.meaning R.IsReady store.words entry reading in
        Interprets i → RunsAsDefined i image.now bound S.left K.held source.old sink.old source.new sink.new result }
    ensures read { (reading : Reading M.State R.Seen) → let i = interpretation_with M.state M.meaning R.IsReady store.words entry reading in
        Interprets i → IsCutWhereReadFails i image.now bound S.left K.held source.old sink.old source.new sink.new result }
    ensures write { (reading : Reading M.State R.Seen) → let i = interpretation_with M.state M.meaning R.IsReady store.words entry reading in
        Interprets i → IsCutWhereWriteFails i image.now bound S.left K.held source.old sink.old source.new sink.new result }
    ensures sink { IfOk result (λ board. SinkGoesOn K.held K.passed (board.end ≡ Some End.WriteFault) sink.old sink.new) }
    ensures cause { EndsByCause S.faults K.faults source.old sink.old source.new sink.new result }
    ensures none { OnErr result ((source.new ≡ source.old) × (sink.new ≡ sink.old)) }
{
    let mut board = reset_board(alloc, machine, store, entry, image)?;
    accepted_images_keep_sound();
    runs_keep_words();
    board.run(bound, source, sink);
    Ok(board)
}

/// Runs a verified image on a machine, from its reset to its end. Memory can run out only before the first cycle.
pub fn run_image<I: Interpreter, S: Source, K: Sink>(
    alloc: Global,
    image: &VerifiedImage,
    bound: u64,
    source: &mut S,
    sink: &mut K,
) -> Result<Board<I::Machine>, AllocError>
where
    I::Machine: Drop,
    requires { bound ≤ 2 ^ 62 }
    ensures ended { IfOk result (λ board. IsSome board.end) }
    ensures run { RunsAsDefined (interpretation I.Machine.state I.Machine.meaning I.Machine.IsReady I.IsShipped I.entry I.timing)
        image.now bound S.left K.held source.old sink.old source.new sink.new result }
    ensures read { IsCutWhereReadFails (interpretation I.Machine.state I.Machine.meaning I.Machine.IsReady I.IsShipped I.entry I.timing)
        image.now bound S.left K.held source.old sink.old source.new sink.new result }
    ensures write { IsCutWhereWriteFails (interpretation I.Machine.state I.Machine.meaning I.Machine.IsReady I.IsShipped I.entry I.timing)
        image.now bound S.left K.held source.old sink.old source.new sink.new result }
    ensures sink { IfOk result (λ board. SinkGoesOn K.held K.passed (board.end ≡ Some End.WriteFault) sink.old sink.new) }
    ensures cause { EndsByCause S.faults K.faults source.old sink.old source.new sink.new result }
    ensures none { OnErr result ((source.new ≡ source.old) × (sink.new ≡ sink.old)) }
{
    let store = I::store(alloc)?;
    I::law();
    run_with::<I::Machine, I::Machine, S, K>(
        alloc,
        I::machine(),
        store,
        I::entry(),
        image,
        bound,
        source,
        sink,
    )
}
