//! What is true of every text.

ghost use Rattle.std.specs.Prelude.{◌≡◌, ℕ, List};
ghost use Rattle.tiny_parser.specs.Texts.{IsRefused, Spells};
ghost use Rattle.tiny_parser.specs.declared.error.TinyError.{TinyError};
ghost use Rattle.tiny_tree.specs.Prelude.{IsNamed, Program};

use tiny_grammar::tokens_have_one_reading;
use tiny_lexemes::lines_have_one_reading;

/// A law: a text spells at most one program; where it spells one it is not refused; and it has at most one refusal.
pub fn texts_have_one_reading()
    ensures one_program { (text : List ℕ) (p q : Program) → Spells text p → Spells text q → p ≡ q }
    ensures not_both { (text : List ℕ) (p : Program) (e : TinyError) → Spells text p → IsRefused text e → ⊥ }
    ensures one_refusal { (text : List ℕ) (d e : TinyError) → IsRefused text d → IsRefused text e → d ≡ e }
{
    lines_have_one_reading();
    tokens_have_one_reading();
}

/// A law: in the program that a text spells, names fit.
pub fn programs_are_named()
    ensures { (text : List ℕ) (p : Program) → Spells text p → IsNamed p }
{}
