//! A session over an accepted program.

ghost use Rattle.std.specs.Prelude.{◌≡◌, ◌≤◌, ◌<◌, IfOk};
ghost use Rattle.mic_base.specs.Prelude.{plain_left};
ghost use Rattle.cli_rewind.specs.Rewinding.{rewinding_at};
ghost use Rattle.cli_rewind.specs.Rewound.{IsStartOf, RewindsPrepared, status_after};

use crate::rewinding::Rewinding;
use cli_clocked::{Microprogram, Prepared};
use cli_outside::{Outside, Status};
use cli_session::{Step, do_lines};
use ijvm_simulation::reset_board;
use mal_shipped::Loaded;
use mic_base::{Files, PlainSource, Sink, Source};
use mic_clock::Clocked;
use mic_rewind::Rewind;
use std::alloc::{AllocError, Global};

/// A session over an accepted program at its reset.
fn begun<M: Clocked + Drop>(
    alloc: Global,
    machine: M,
    prepared: Prepared,
    depth: u32,
    input: Vec<u8>,
) -> Result<Rewinding<M>, AllocError>
    requires machine { prepared.micro.program.machine ≡ M.meaning.machine }
    requires depth { (0 < depth) × (depth ≤ 65536) }
    ensures start { IfOk result (λ d. IsStartOf M.state M.meaning depth prepared (rewinding_at d.rewind d.words d.input)) }
    ensures input { IfOk result (λ d. plain_left d.input ≡ input.items) }
{
    let Prepared { program, micro } = prepared;
    let Microprogram { loaded, .. } = micro;
    let Loaded { store, entry, .. } = loaded;
    let board = reset_board(alloc, machine, store, entry, &program)?;
    let rewind = Rewind::new(alloc, board, &program, depth)?;
    Ok(Rewinding {
        rewind,
        input: PlainSource::new(input),
        words: program.map().stack_end,
    })
}

/// The status of a session that was left in this way.
fn status_after(step: Step) -> Status
    ensures { result.0 ≡ status_after step }
{
    match step {
        Step::On => Status::DONE,
        Step::Over => Status::DONE,
        Step::ConsoleFailed => Status::CONSOLE,
        Step::SinkFailed => Status::SINK,
    }
}

/// Steps the run of an accepted program forward and back, as the console's lines ask. The program's input is given whole.
pub fn rewind_program<M: Clocked + Drop, F: Files, S: Source, K: Sink, E: Sink>(
    alloc: Global,
    machine: M,
    prepared: Prepared,
    depth: u32,
    input: Vec<u8>,
    outside: &mut Outside<'_, F, S, K, E>,
) -> Status
    requires machine { prepared.micro.program.machine ≡ M.meaning.machine }
    requires depth { (0 < depth) × (depth ≤ 65536) }
    ensures { RewindsPrepared M.state M.meaning depth prepared input.items outside.old outside.new result.0 }
{
    let mut rewinding = match begun(alloc, machine, prepared, depth, input) {
        Ok(rewinding) => rewinding,
        Err(_) => return outside.no_memory(),
    };
    status_after(do_lines(&mut rewinding, outside))
}
