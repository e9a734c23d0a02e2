//! The input of the program that a session is about.

ghost use Rattle.std.specs.Prelude.{◌≡◌, IfOk, OnOk};
ghost use Rattle.cli_outside.specs.Prelude.{name_in, OverIfErr};
ghost use Rattle.cli_session.specs.Input.{IsInput, IsNoInput};

use cli_outside::{Outside, Status};
use mic_base::{Files, Sink, Source};
use std::alloc::Global;

/// The bytes of the named file, or none where no file is named.
pub fn chosen_input<F: Files, S: Source, K: Sink, E: Sink>(
    alloc: Global,
    name: Option<&str>,
    outside: &mut Outside<'_, F, S, K, E>,
) -> Result<Vec<u8>, Status>
    ensures ok { IfOk result (λ bytes. IsInput (name_in name.entry) outside.old.seen bytes.items) }
    ensures same { OnOk result (outside.new ≡ outside.old) }
    ensures err { OverIfErr (IsNoInput (name_in name.entry)) outside.old outside.new result }
{
    match name {
        Some(name) => outside.read(alloc, name),
        None => Ok(Vec::new(alloc)),
    }
}
