//! One cycle of any machine, in which each part hands its values on to the next.

ghost use Rattle.std.specs.Prelude.{◌≡◌, ◌<◌, None, IfNone, IfOk, IfSome, OnOk, OnErr, slice_index};
ghost use Rattle.console_port.specs.Prelude.{StreamsGoOn};
ghost use Rattle.mic_clock.specs.Cycle.{IsDecoded};
ghost use Rattle.mic_clock.specs.Edge.{IsEdgeInside, IsEdgeOver};
ghost use Rattle.mic_clock.specs.Run.{buses_of, word_at};

use crate::clocked::Clocked;
use console_port::{Bus, BusFault};
use mic_base::{Sink, Source};
use micro_word::{Lines, Store};

/// The word at an address, with its control lines.
#[inline(always)]
pub fn decoded_at(store: &Store, address: u16) -> (u64, &Lines)
    requires { address < 512 }
    ensures word { result.0 ≡ slice_index store.now.words address }
    ensures decoded { IsDecoded store.now.machine result.0 result.1.now }
{
    (store.word(address), store.lines_at(address))
}

/// A cycle of any kind. Returns whether it was a stall. It is in a function of its own, and is handed nothing of the cycle, so
/// that what comes between the parts of a cycle that does not come here stays in registers.
#[cold]
#[inline(never)]
fn clock_outside<M: Clocked, S: Source, K: Sink>(
    machine: &mut M,
    store: &Store,
    bus: &mut Bus,
    source: &mut S,
    sink: &mut K,
) -> Result<bool, BusFault>
    requires { store.now.machine ≡ M.meaning.machine }
    ensures stalled { IfOk result (λ s. s ≡ (M.meaning.drives (word_at M.meaning store.now.words (M.state machine.old)) (M.state machine.old)).stalled) }
    ensures seen { OnOk result (M.seen machine.new ≡ buses_of M.meaning store.now.words (M.state machine.old) (M.seen machine.old) None) }
    ensures kept { OnErr result (M.seen machine.new ≡ M.seen machine.old) }
    ensures edge { IsEdgeOver M.meaning S.left K.held (word_at M.meaning store.now.words (M.state machine.old))
        (M.state machine.old) bus.old source.old sink.old (M.state machine.new) bus.new source.new sink.new result }
    ensures streams { StreamsGoOn S.left S.faults K.held K.passed K.faults bus.old source.old sink.old
        bus.new source.new sink.new result }
{
    let (word, lines) = decoded_at(store, machine.mpc());
    let drive = machine.drive(word, lines);
    let computed = machine.compute(word, lines, drive);
    machine.edge(word, lines, drive, computed, bus, source, sink)?;
    Ok(drive.stalled)
}

/// A cycle that needs neither a source nor a sink. Returns whether it was a stall. At None nothing was done, and the cycle
/// is one for `clock_outside`; any cycle may be.
#[inline(always)]
pub fn clock_inside<M: Clocked>(machine: &mut M, store: &Store, bus: &mut Bus) -> Option<bool>
    requires { store.now.machine ≡ M.meaning.machine }
    ensures stalled { IfSome result (λ s. s ≡ (M.meaning.drives (word_at M.meaning store.now.words (M.state machine.old)) (M.state machine.old)).stalled) }
    ensures seen { IfSome result (λ _. M.seen machine.new ≡ buses_of M.meaning store.now.words (M.state machine.old) (M.seen machine.old) None) }
    ensures edge { IfSome result (λ _. IsEdgeInside M.meaning (word_at M.meaning store.now.words (M.state machine.old)) (M.state machine.old) bus.old
        (M.state machine.new) bus.new) }
    ensures ended { bus.new.console.ended ≡ bus.old.console.ended }
    ensures none { IfNone result ((M.state machine.new ≡ M.state machine.old) × (M.seen machine.new ≡ M.seen machine.old) × (bus.new ≡ bus.old)) }
{
    let (word, lines) = decoded_at(store, machine.mpc());
    let drive = machine.drive(word, lines);
    let computed = machine.compute(word, lines, drive);
    if !machine.edge_inside(word, lines, drive, computed, bus) {
        return None;
    }
    Some(drive.stalled)
}

/// A cycle of any kind. Returns whether it was a stall. Most need neither the source nor the sink: where `tries` says so,
/// it is first tried as one of these.
#[inline(always)]
pub fn clock<M: Clocked, S: Source, K: Sink>(
    tries: bool,
    machine: &mut M,
    store: &Store,
    bus: &mut Bus,
    source: &mut S,
    sink: &mut K,
) -> Result<bool, BusFault>
    requires { store.now.machine ≡ M.meaning.machine }
    ensures stalled { IfOk result (λ s. s ≡ (M.meaning.drives (word_at M.meaning store.now.words (M.state machine.old)) (M.state machine.old)).stalled) }
    ensures seen { OnOk result (M.seen machine.new ≡ buses_of M.meaning store.now.words (M.state machine.old) (M.seen machine.old) None) }
    ensures kept { OnErr result (M.seen machine.new ≡ M.seen machine.old) }
    ensures edge { IsEdgeOver M.meaning S.left K.held (word_at M.meaning store.now.words (M.state machine.old))
        (M.state machine.old) bus.old source.old sink.old (M.state machine.new) bus.new source.new sink.new result }
    ensures streams { StreamsGoOn S.left S.faults K.held K.passed K.faults bus.old source.old sink.old
        bus.new source.new sink.new result }
{
    if !tries {
        return clock_outside(machine, store, bus, source, sink);
    }
    match clock_inside(machine, store, bus) {
        Some(stalled) => Ok(stalled),
        None => clock_outside(machine, store, bus, source, sink),
    }
}
