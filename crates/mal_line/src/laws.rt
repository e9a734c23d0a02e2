//! What the reading of a line promises of all lines.
ghost use Rattle.std.specs.Prelude.{List};
ghost use Rattle.mal_line.specs.Common.{Machine, Token, Word};
ghost use Rattle.mal_line.specs.Chains.{dest_bits, LoadsNamed};
ghost use Rattle.mal_line.specs.declared.content.Content.{Content};
ghost use Rattle.mal_line.specs.Lines.{HasPart, SpellsLine};
ghost use Rattle.mal_line.specs.Reading.{LinesReadAsSpelled, LinesRefusedAsFaulty};

/// A line is read as what it spells or refused by its first refusal: so it spells at most one thing, and what it spells
/// is never refused. A statement that is spelled stands in a word of the machine.
pub fn reads_what_is_spelled()
    ensures spelled { LinesReadAsSpelled }
    ensures refused { LinesRefusedAsFaulty }
    ensures stands { (m : Machine) (ts : List Token) (content : Content) → SpellsLine m ts content → HasPart m content }
{}

/// The bits of the named destinations load their registers, and no others.
pub fn named_registers_are_loaded()
    ensures { (dests : List Word) → LoadsNamed (dest_bits 0 dests) dests }
{}
