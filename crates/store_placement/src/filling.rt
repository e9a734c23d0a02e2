//! The control store of a placed program.
ghost use Rattle.std.specs.Prelude.{◌≡◌, ◌<◌, length, slice_index, IsTrue};
ghost use Rattle.mic_words.specs.declared.machine.Machine.{Machine};
ghost use Rattle.micro_word.specs.Prelude.{is_valid};
ghost use Rattle.mal_parser.specs.Prelude.{IsMalProgram};
ghost use Rattle.store_placement.specs.Placement.{Places};
ghost use Rattle.store_placement.specs.Program.{demands_of, placed_next, LeadsInside, IsPlacedAs, goto_end, placed_default, IsFilled};

use crate::placement::Placement;
use mal_parser::{MalNext, MalProgram};
use micro_word::{Part, Placed, PlacedNext, Store};

fn placed_next(placement: &Placement, number: u16, next: MalNext) -> PlacedNext
    requires inside { LeadsInside (length placement.now) number next }
    requires number { number < 512 }
    ensures { result ≡ placed_next (slice_index placement.now) number next }
{
    match next {
        MalNext::Following => PlacedNext::Goto(placement.address(number + 1)),
        MalNext::Goto(to) => PlacedNext::Goto(placement.address(to)),
        MalNext::Dispatch { high } => PlacedNext::Dispatch { high },
        MalNext::Branch { test, no, .. } => PlacedNext::Branch {
            test,
            no: placement.address(no),
        },
    }
}

fn placed_statement(program: &MalProgram, placement: &Placement, s: u16) -> Placed
    requires program { IsMalProgram program.now }
    requires placement { Places (demands_of program.now) placement.now }
    requires inside { s < length program.now.statements }
    ensures value { IsPlacedAs program.now placement.now s result }
    ensures valid { IsTrue (is_valid program.now.machine result) }
{
    let statement = program.statement(s);
    Placed {
        part: statement.part,
        next: placed_next(placement, s, statement.next),
    }
}

/// A statement that does nothing and goes to the end by error.
pub(crate) fn goto_end() -> Placed
    ensures value { result ≡ goto_end }
    ensures valid { (machine : Machine) → IsTrue (is_valid machine result) }
{
    Placed {
        part: Part::IDLE,
        next: PlacedNext::Goto(0xfe),
    }
}

/// What unused words hold.
fn placed_default(program: &MalProgram, placement: &Placement) -> Placed
    requires program { IsMalProgram program.now }
    requires placement { Places (demands_of program.now) placement.now }
    ensures value { result ≡ placed_default (slice_index placement.now) program.now.fallback }
    ensures valid { IsTrue (is_valid program.now.machine result) }
{
    match program.fallback() {
        Some(fallback) => Placed {
            part: fallback.part,
            next: placed_next(placement, 0, fallback.next),
        },
        None => goto_end(),
    }
}

/// The control store that holds each statement at its address.
pub fn fill(program: &MalProgram, placement: &Placement) -> Store
    requires { Places (demands_of program.now) placement.now }
    ensures machine { result.machine ≡ program.now.machine }
    ensures words { IsFilled program.now placement.now result.words }
{
    let count = program.len();
    let mut store = Store::filled(program.machine(), &placed_default(program, placement));
    for s in 0..count {
        store.set(
            placement.address(s),
            &placed_statement(program, placement, s),
        );
    }
    store
}
