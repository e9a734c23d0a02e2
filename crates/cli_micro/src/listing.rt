//! A control store is listed, and a microprogram printed.

ghost use Rattle.std.specs.Prelude.{◌≡◌, ◌<◌, ◌^◌, length, IfOk, IfErr, IsSome, None};
ghost use Rattle.cli_micro.specs.Common.{IsStore, machine_of, IsRefusal};
ghost use Rattle.cli_micro.specs.Answers.{IsPrinted, IsUnprinted};
ghost use Rattle.cli_micro.specs.Texts.{listing, store_line};

use crate::lines::{add_line, statement_of, word_text};
use crate::reasons::{mal_reason, store_reason};
use cli_outside::Refusal;
use mal_parser::{parse_mal, print_mal, print_placed};
use mic_base::Line;
use micro_word::{Machine, Store};
use std::alloc::{AllocError, Global};
use store_placement::{machine_of, read_store};

/// An address, its word, and the statement whose word it is.
fn store_line(store: &Store, machine: Machine, address: u16) -> Line
    requires own { machine ≡ store.now.machine }
    requires inside { address < 512 }
    ensures { result ≡ store_line store.now address }
{
    let mut line = Line::new();
    word_text(&mut line, store, address);
    print_placed(
        &statement_of(machine, store.word(address)),
        machine,
        &mut line,
    );
    line
}

/// A line for each address.
fn listing(alloc: Global, store: &Store) -> Result<Vec<u8>, AllocError>
    ensures text { IfOk result (λ text. text.items ≡ listing store.now) }
    ensures store { IsStore store.now }
{
    let machine = store.machine();
    let mut text = Vec::new(alloc);
    for address in 0..512 {
        add_line(&mut text, &store_line(store, machine, address))?;
    }
    Ok(text)
}

/// The listing of a store file.
fn listed(alloc: Global, machine: Machine, bytes: &[u8]) -> Result<Vec<u8>, Refusal>
    requires store { IsSome (machine_of bytes.now) }
    requires len { length bytes.now < 2 ^ 32 }
    ensures ok { IfOk result (λ text. IsPrinted machine bytes.now text.items) }
    ensures err { IfErr result (IsRefusal (IsUnprinted machine) bytes.now) }
{
    match read_store(alloc, bytes) {
        Ok(store) => Ok(listing(alloc, &store)?),
        Err(error) => Err(Refusal::by(store_reason(error))),
    }
}

/// The canonical text of a microprogram.
fn printed(alloc: Global, machine: Machine, bytes: &[u8]) -> Result<Vec<u8>, Refusal>
    requires text { machine_of bytes.now ≡ None }
    requires len { length bytes.now < 2 ^ 32 }
    ensures ok { IfOk result (λ text. IsPrinted machine bytes.now text.items) }
    ensures err { IfErr result (IsRefusal (IsUnprinted machine) bytes.now) }
{
    match parse_mal(alloc, machine, bytes) {
        Ok(program) => Ok(print_mal(alloc, &program)?),
        Err(error) => Err(Refusal::by(mal_reason(error))),
    }
}

/// What `print-micro` prints of a file of these bytes, or why the file is refused.
pub(crate) fn printed_text(
    alloc: Global,
    machine: Machine,
    bytes: &[u8],
) -> Result<Vec<u8>, Refusal>
    requires { length bytes.now < 2 ^ 32 }
    ensures ok { IfOk result (λ text. IsPrinted machine bytes.now text.items) }
    ensures err { IfErr result (IsRefusal (IsUnprinted machine) bytes.now) }
{
    match machine_of(bytes) {
        Some(_) => listed(alloc, machine, bytes),
        None => printed(alloc, machine, bytes),
    }
}
