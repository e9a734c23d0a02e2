//! What holds of every list of words that is taken.

ghost use Rattle.std.specs.Prelude.{◌≡◌, List, Some};
ghost use Rattle.cli_words.specs.Reading.{Entry, Form, Text, reads};
ghost use Rattle.cli_words.specs.Given.{IsGiven};
ghost use Rattle.cli_words.specs.Spelled.{IsTaken, IsWritten};
ghost use Rattle.cli_words.specs.Table.{form_for};
ghost use Rattle.cli_words.specs.declared.table.CommandName.{CommandName};

/// Words that are taken give each option and each plain word at most once, with a value that is not empty. No plain
/// word is missing.
pub fn each_name_is_given_once()
    ensures { (f : Form) (words : List Text) (given : List Entry) → reads f words ≡ Some given → IsGiven f given }
{}

/// What a command's words give is written in them: options with their values, flags, and plain words in the order of
/// its row. Words in which that is written are taken, where each name is given once.
pub fn what_is_given_is_written()
    ensures written { (f : Form) (words : List Text) (given : List Entry) → IsWritten f words given }
    ensures read { (name : CommandName) (words : List Text) (given : List Entry) → IsTaken (form_for name) words given }
{}
