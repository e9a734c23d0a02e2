//! Languages whose texts are read line by line.

ghost use Rattle.source_text.specs.Parsing.{Agrees, IsReadAsSpelled};

/// A language whose texts say something line by line.
pub trait LineLanguage {
    ghost use Rattle.source_text.specs.Parsing.{Parser};
    ghost use Rattle.source_text.specs.Text.{Grammar};

    /// What a text is read for, such as a machine.
    ghost Setting: { Type 0 };

    ghost Token: { Type 0 };

    /// Why the tokens of a line are refused.
    ghost Fault: { Type 0 };

    /// What a line says.
    ghost Content: { Type 0 };

    ghost Program: { Type 0 };

    ghost Refusal: { Type 0 };

    /// The state after the lines so far.
    ghost State: { Type 0 };

    /// What a text says, or why it is refused.
    ghost grammar: { Setting → Grammar Token Fault Content Program Refusal };

    /// How a text is read.
    ghost parser: { Parser Token Fault Content Program Refusal State };

    /// The state before the first line.
    ghost start: { Setting → State };
}

/// A law: a text says one thing, and what is read from it is what it says.
pub fn a_text_says_one_thing<L: LineLanguage>()
    requires { (setting : L.Setting) → Agrees (L.grammar setting) L.parser (L.start setting) }
    ensures { (setting : L.Setting) → IsReadAsSpelled (L.grammar setting) L.parser (L.start setting) }
{}
