//! A microprogram is placed: its control store, and what is printed of it.

ghost use Rattle.std.specs.Prelude.{◌≡◌, ◌<◌, ◌^◌, ◌++◌, length, IfOk, IfErr, OnOk};
ghost use Rattle.cli_micro.specs.Common.{Places, demands_of, IsRefusal};
ghost use Rattle.cli_micro.specs.Answers.{IsMade, IsRefusedText};
ghost use Rattle.cli_micro.specs.Texts.{counts_line, placement_text, statement_line, statements_text};

use crate::lines::{add_line, store_law, word_text};
use crate::reasons::{mal_reason, place_reason};
use cli_outside::Refusal;
use mal_parser::{MalProgram, parse_mal, print_labelled};
use mic_base::Line;
use micro_word::{Machine, Store};
use std::alloc::{AllocError, Global};
use store_placement::{Constraints, Placement, constraints_of, fill, place, store_bytes};

/// The store file of a placed microprogram, and what is printed of it.
#[derive(Drop)]
pub(crate) struct Made {
    pub file: Vec<u8>,
    pub text: Vec<u8>,
}

/// A statement's address, the word there, and its canonical line.
fn statement_line(program: &MalProgram, placement: &Placement, store: &Store, s: u16) -> Line
    requires inside { s < length program.now.statements }
    requires placement { Places (demands_of program.now) placement.now }
    ensures { result ≡ statement_line program.now placement.now store.now s }
{
    let mut line = Line::new();
    word_text(&mut line, store, placement.address(s));
    print_labelled(program, s, &mut line);
    line
}

fn counts_line(program: &MalProgram, constraints: &Constraints) -> Line
    requires { constraints.now ≡ demands_of program.now }
    ensures { result ≡ counts_line program.now }
{
    let mut line = Line::numbered("statements ", u64::from(program.len()));
    line.number(" fixed ", u64::from(constraints.fixed_count()));
    line.number(" pairs ", u64::from(constraints.pair_count()));
    line
}

/// Adds the line of each statement, in order.
fn add_statements(
    text: &mut Vec<u8>,
    program: &MalProgram,
    placement: &Placement,
    store: &Store,
) -> Result<(), AllocError>
    requires { Places (demands_of program.now) placement.now }
    ensures { OnOk result (text.new.items ≡ text.old.items ++ statements_text program.now placement.now store.now) }
{
    for s in 0..program.len() {
        add_line(text, &statement_line(program, placement, store, s))?;
    }
    Ok(())
}

/// The line of each statement, and the counts.
fn placement_text(
    alloc: Global,
    program: &MalProgram,
    constraints: &Constraints,
    placement: &Placement,
    store: &Store,
) -> Result<Vec<u8>, AllocError>
    requires demands { constraints.now ≡ demands_of program.now }
    requires placement { Places (demands_of program.now) placement.now }
    ensures { IfOk result (λ text. text.items ≡ placement_text program.now placement.now store.now) }
{
    let mut text = Vec::new(alloc);
    add_statements(&mut text, program, placement, store)?;
    add_line(&mut text, &counts_line(program, constraints))?;
    Ok(text)
}

/// What `micro` makes of a file of these bytes, or why the file is refused.
pub(crate) fn made_of(alloc: Global, machine: Machine, bytes: &[u8]) -> Result<Made, Refusal>
    requires { length bytes.now < 2 ^ 32 }
    ensures ok { IfOk result (λ made. IsMade machine bytes.now made.file.items made.text.items) }
    ensures err { IfErr result (IsRefusal (IsRefusedText machine) bytes.now) }
{
    let program = match parse_mal(alloc, machine, bytes) {
        Ok(program) => program,
        Err(error) => return Err(Refusal::by(mal_reason(error))),
    };
    let constraints = constraints_of(&program);
    let placement = match place(&constraints) {
        Ok(placement) => placement,
        Err(error) => return Err(Refusal::Refused(place_reason(&program, error))),
    };
    let store = fill(&program, &placement);
    store_law(&store);
    Ok(Made {
        file: store_bytes(alloc, &store)?,
        text: placement_text(alloc, &program, &constraints, &placement, &store)?,
    })
}
