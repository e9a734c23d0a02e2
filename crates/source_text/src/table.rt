//! The table of a language, and how a token is read by it.

ghost use Rattle.std.specs.Prelude.{◌≡◌, ◌+◌, ◌≤◌, ◌<◌, ◌∷◌, length};
ghost use Rattle.std.specs.List.{prefix_len};
ghost use Rattle.source_text.specs.Runs.{quote_len};
ghost use Rattle.source_text.specs.Table.{begins_number, begins_run, extent, front_of, is_pair, name_or_other, reach, token_of};

use crate::runs::{is_name_byte, name_len};
use mic_base::Name;

/// A language whose lines are read token by token.
pub trait Language {
    type Token: Drop;

    ghost use Rattle.source_text.specs.Table.{Table};

    ghost table: { Table Self.Token };

    /// The token of a sign, a dotted word or a reserved word.
    fn sign(text: &[u8]) -> Option<Self::Token>
        ensures { result ≡ table.sign text.now };

    /// The token of a number's text, if it has one.
    fn number(text: &[u8]) -> Option<Self::Token>
        ensures { result ≡ table.number text.now };

    /// The token of a name that is not reserved.
    fn name(name: Name) -> Self::Token
        ensures { result ≡ table.name name };

    /// The token of any other text, if the language has one.
    fn other() -> Option<Self::Token>
        ensures { result ≡ table.other };

    /// Whether `-` begins a number.
    fn has_minus() -> bool
        ensures { result ≡ table.minus };

    /// Whether a single quote begins a number.
    fn has_quotes() -> bool
        ensures { result ≡ table.quotes };

    /// Whether the byte may stand after a dot.
    fn is_dotted(byte: u8) -> bool
        ensures { result ≡ table.dotted byte };
}

/// How a token goes on after its first byte.
#[derive(Clone, Copy, Debug, PartialEq, Eq)]
pub enum Front {
    /// With letters, digits and `_`.
    Run,
    /// With what may stand after a dot.
    Dotted,
    /// With two bytes, or what the line has of them.
    Quote,
    /// With nothing, or with the second byte of a sign.
    Sign,
}

fn begins_run<L: Language>(byte: u8) -> bool
    ensures { result ≡ begins_run L.table byte }
{
    is_name_byte(byte) || (byte == b'-' && L::has_minus())
}

fn front_of<L: Language>(byte: u8) -> Front
    ensures { result ≡ front_of L.table byte }
{
    if begins_run::<L>(byte) {
        Front::Run
    } else if byte == b'.' {
        Front::Dotted
    } else if byte == b'\'' && L::has_quotes() {
        Front::Quote
    } else {
        Front::Sign
    }
}

fn dotted_len<L: Language>(rest: &[u8]) -> usize
    ensures value { result ≡ prefix_len L.table.dotted rest.now }
    ensures small { result ≤ length rest.now }
{
    rest.iter().take_while(|byte| L::is_dotted(**byte)).count()
}

fn quote_len(rest: &[u8]) -> usize
    ensures value { result ≡ quote_len rest.now }
    ensures small { result ≤ length rest.now }
{
    match rest {
        [] => 0,
        [_] => 1,
        [_, _, ..] => 2,
    }
}

fn is_pair<L: Language>(first: u8, rest: &[u8]) -> bool
    ensures { result ≡ is_pair L.table first rest.now }
{
    match rest {
        [] => false,
        [second, ..] => L::sign(&[first, *second]).is_some(),
    }
}

fn sign_reach<L: Language>(first: u8, rest: &[u8]) -> usize
    ensures value { result ≡ reach L.table Front.Sign first rest.now }
    ensures small { result ≤ length rest.now }
{
    if is_pair::<L>(first, rest) { 1 } else { 0 }
}

/// How far the first token of a line reaches.
pub fn extent<L: Language>(first: u8, rest: &[u8]) -> usize
    ensures value { result ≡ extent L.table (first ∷ rest.now) }
    ensures some { 0 < result }
    ensures small { result ≤ length rest.now + 1 }
{
    let reach = match front_of::<L>(first) {
        Front::Run => name_len(rest),
        Front::Dotted => dotted_len::<L>(rest),
        Front::Quote => quote_len(rest),
        Front::Sign => sign_reach::<L>(first, rest),
    };
    reach + 1
}

fn begins_number<L: Language>(text: &[u8]) -> bool
    ensures { result ≡ begins_number L.table text.now }
{
    match text {
        [] => false,
        [first, ..] => {
            first.is_ascii_digit()
                || (*first == b'-' && L::has_minus())
                || (*first == b'\'' && L::has_quotes())
        }
    }
}

fn name_or_other<L: Language>(text: &[u8]) -> Option<L::Token>
    ensures { result ≡ name_or_other L.table text.now }
{
    match Name::new(text) {
        Some(name) => Some(L::name(name)),
        None => L::other(),
    }
}

/// The token of a text.
pub fn token<L: Language>(text: &[u8]) -> Option<L::Token>
    ensures { result ≡ token_of L.table text.now }
{
    if begins_number::<L>(text) {
        return L::number(text);
    }
    match L::sign(text) {
        Some(token) => Some(token),
        None => name_or_other::<L>(text),
    }
}
