//! What is read from a line is what it spells.

ghost use Rattle.std.specs.Prelude.{◌≡◌, ℕ, List};
ghost use Rattle.ijvm_line.specs.Reading.{LinesReadAsSpelled, LinesRefusedAsFaulty};
ghost use Rattle.ijvm_line.specs.Parameters.{method_tokens, parameters};

/// A line is read as what it spells at its place, and refused by the first refusal that it has: so it spells at most one
/// thing, and what it spells is never refused.
pub fn reads_what_is_spelled()
    ensures spelled { LinesReadAsSpelled }
    ensures refused { LinesRefusedAsFaulty }
{}

/// The parameters of a method's line are those that it spells.
pub fn parameters_are_those_spelled()
    ensures { (name : List ℕ) (names : List (List ℕ)) → parameters (method_tokens name names) ≡ names }
{}
