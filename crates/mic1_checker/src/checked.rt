//! A control store that was shown to interpret IJVM, and its runs.

ghost use Rattle.std.specs.Prelude.{◌≡◌, ◌<◌, ◌≤◌, ◌^◌, Ok, Some, IfOk, OnErr, IsSome};
ghost use Rattle.mic_words.specs.declared.machine.Machine.TheVariants as machines;
ghost use Rattle.console_port.specs.Streams.{SinkGoesOn};
ghost use Rattle.ijvm_simulation.specs.Answers.{RunsAsDefined, IsCutWhereReadFails, IsCutWhereWriteFails, EndsByCause};
ghost use Rattle.mic1_checker.specs.Checked.{CheckedView, IsChecked, checked as interpretation};

use crate::ready::InWords;
use ijvm_simulation::{Interpreter, run_with};
use ijvm_verifier::VerifiedImage;
use mic_base::{Sink, Source};
use mic_clock::{Board, End};
use mic1_checks::{Costs, NotShown, Stores, Verdict as Judged, judge};
use mic1_datapath::Mic1;
use mic1_interpreter::Mic1Interpreter;
use micro_word::Store;
use std::alloc::{AllocError, Global};
use std::marker::Model;

/// A control store of Mic-1 with the address where its microprogram begins, that was shown to interpret IJVM, and what it
/// spends. Only `check` makes one.
#[derive(Drop)]
pub struct Checked {
    store: Store,
    entry: u16,
    costs: Costs,
}

impl Model for Checked {
    ghost use Rattle.mic1_checker.specs.Checked.{CheckedView, IsChecked};

    ghost Value = { CheckedView };

    ghost view = { λ c. record { store = c.store; entry = c.entry; costs = c.costs } };

    ghost invariant = { λ c. IsChecked (record { store = c.store; entry = c.entry; costs = c.costs }) };
}

impl Checked {
    fn new(store: Store, entry: u16, costs: Costs) -> Checked
        requires { IsChecked (record { store = store; entry = entry; costs = costs }) }
        ensures store { result.store ≡ store }
        ensures entry { result.entry ≡ entry }
        ensures costs { result.costs ≡ costs }
    {
        Checked {
            store,
            entry,
            costs,
        }
    }

    pub fn store(&self) -> &Store
        ensures is { result.now ≡ self.now.store }
        ensures checked { IsChecked self.now }
    {
        &self.store
    }

    /// The address of its boundaries, where a run begins.
    pub fn entry(&self) -> u16
        ensures is { result ≡ self.now.entry }
        ensures checked { IsChecked self.now }
    {
        self.entry
    }

    /// What it spends on a boot and on each instruction, by what the store that ships spends.
    pub fn costs(&self) -> &Costs
        ensures is { result.now ≡ self.now.costs }
        ensures checked { IsChecked self.now }
    {
        &self.costs
    }

    pub fn into_store(self) -> Store
        ensures is { result ≡ self.store }
        ensures checked { IsChecked self }
    {
        self.store
    }
}

/// What came of a control store.
#[derive(Drop)]
pub enum Verdict {
    /// It interprets IJVM.
    Proved(Checked),
    /// It was not shown to, which promises nothing: a store that does the same may not be recognised.
    NotShown(NotShown),
}

/// The store with this entry, if it is shown to interpret IJVM as the store that ships does; else what is not shown.
pub fn check(alloc: Global, store: Store, entry: u16) -> Result<Verdict, AllocError>
    requires machine { store.machine ≡ machines.Mic1 }
    requires entry { entry < 512 }
    ensures store { (checked : CheckedView) → result ≡ Ok (Verdict.Proved checked) → checked.store ≡ store }
    ensures entry { (checked : CheckedView) → result ≡ Ok (Verdict.Proved checked) → checked.entry ≡ entry }
{
    let shipped = Mic1Interpreter::store(alloc)?;
    Mic1Interpreter::law();
    let stores = Stores {
        store: &shipped,
        entry: Mic1Interpreter::entry(),
        other: &store,
        other_entry: entry,
    };
    match judge(&stores, alloc)? {
        Judged::Shown(costs) => Ok(Verdict::Proved(Checked::new(store, entry, costs))),
        Judged::NotShown(why) => Ok(Verdict::NotShown(why)),
    }
}

/// Runs a verified image on a Mic-1 with a checked store, from its reset to its end. Memory can run out only before the
/// first cycle. The board that is left has the store.
pub fn run_checked<S: Source, K: Sink>(
    alloc: Global,
    checked: Checked,
    image: &VerifiedImage,
    bound: u64,
    source: &mut S,
    sink: &mut K,
) -> Result<Board<Mic1>, AllocError>
    requires { bound ≤ 2 ^ 62 }
    ensures ended { IfOk result (λ board. IsSome board.end) }
    ensures run { RunsAsDefined (interpretation checked) image.now bound S.left K.held source.old sink.old source.new sink.new result }
    ensures read { IsCutWhereReadFails (interpretation checked) image.now bound S.left K.held source.old sink.old source.new sink.new result }
    ensures write { IsCutWhereWriteFails (interpretation checked) image.now bound S.left K.held source.old sink.old source.new sink.new result }
    ensures sink { IfOk result (λ board. SinkGoesOn K.held K.passed (board.end ≡ Some End.WriteFault) sink.old sink.new) }
    ensures cause { EndsByCause S.faults K.faults source.old sink.old source.new sink.new result }
    ensures none { OnErr result ((source.new ≡ source.old) × (sink.new ≡ sink.old)) }
{
    let entry = checked.entry();
    let store = checked.into_store();
    run_with::<Mic1, InWords, S, K>(alloc, Mic1::new(), store, entry, image, bound, source, sink)
}
