//! What the coding promises of all statements and of all numbers, for proofs in the crates above it.
ghost use Rattle.std.specs.Prelude.{◌≡◌, ◌↔◌, ℕ, IsTrue};
ghost use Rattle.micro_word.specs.declared.statement.Placed.{Placed};
ghost use Rattle.micro_word.specs.Coding.{microword_of, statement_of};
ghost use Rattle.micro_word.specs.Words.{HasCanonicalWord, is_valid, is_canonical, IsCanonical, SpellsWord, Valid};

use mic_words::Machine;

/// A valid statement meets each condition, its word is canonical, and the word's fields name that statement.
pub fn statement_law(_machine: Machine)
    ensures conditions { (p : Placed) → IsTrue (is_valid _machine p) → Valid _machine p }
    ensures canonical { (p : Placed) → IsTrue (is_valid _machine p) → HasCanonicalWord _machine p }
    ensures statement { (p : Placed) → IsTrue (is_valid _machine p) → statement_of _machine (microword_of _machine p) ≡ p }
{}

/// A number passes the test for a canonical word just where it is the word of a valid statement. Its fields then name
/// that statement.
pub fn word_law(_machine: Machine)
    ensures canonical { (w : ℕ) → IsTrue (is_canonical _machine w) ↔ IsCanonical _machine w }
    ensures spells { (w : ℕ) → IsTrue (is_canonical _machine w) → SpellsWord _machine w (statement_of _machine w) }
{}
