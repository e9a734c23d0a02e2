//! What holds of both shipped microprograms.

ghost use Rattle.std.specs.Prelude.{◌≡◌, ℕ, List};
ghost use Rattle.mic_words.specs.declared.machine.Machine.{Machine};
ghost use Rattle.mal_parser.specs.Prelude.{canonical_text};
ghost use Rattle.mal_shipped.specs.declared.loaded.Loaded.{Loaded};
ghost use Rattle.mal_shipped.specs.Listing.{listed_program, addresses_of, text_of};
ghost use Rattle.mal_shipped.specs.Loaded.{AreChosenFor, IsLoadedFor};
ghost use Rattle.mal_shipped.specs.Shipped.{HasShipped};

use micro_word::{Machine, statement_law};
use store_placement::chosen_law;

/// Each text is the canonical text of the program that is listed.
pub fn shipped_texts_are_canonical()
    ensures { (machine : Machine) → text_of machine ≡ canonical_text (listed_program machine) }
{}

/// The listed addresses are the chosen placement, and no other addresses are.
pub fn shipped_programs_are_listed()
    ensures chosen { (machine : Machine) → AreChosenFor machine (addresses_of machine) }
    ensures only { (machine : Machine) (list : List ℕ) → AreChosenFor machine list → list ≡ addresses_of machine }
{
    chosen_law();
}

/// A shipped microprogram that is loaded has the listed statement at each address of its control store, and Main1 at 0x002.
pub fn loaded_programs_are_shipped()
    ensures words { (machine : Machine) (l : Loaded) → IsLoadedFor machine l → HasShipped machine l.store.words }
    ensures entry { (machine : Machine) (l : Loaded) → IsLoadedFor machine l → l.entry ≡ 0x002 }
{
    shipped_programs_are_listed();
    statement_law(Machine::Mic1);
    statement_law(Machine::Mic2);
}
