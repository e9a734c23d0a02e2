//! The signs and reserved words of Tiny, each with its spelling.

ghost use Rattle.std.specs.Prelude.{◌≡◌};
ghost use Rattle.tiny_lexemes.specs.Signs.{find_sign, sign_text};

use tiny_draft::Sign;

const SIGNS: [Sign; 23] = [
    Sign::Open,
    Sign::Close,
    Sign::Begin,
    Sign::End,
    Sign::Comma,
    Sign::Semicolon,
    Sign::Assign,
    Sign::Equal,
    Sign::Different,
    Sign::Less,
    Sign::Plus,
    Sign::Minus,
    Sign::And,
    Sign::Or,
    Sign::Fn,
    Sign::Var,
    Sign::If,
    Sign::Else,
    Sign::While,
    Sign::Return,
    Sign::Put,
    Sign::Get,
    Sign::Halt,
];

fn sign_text(sign: Sign) -> &'static str
    ensures { result.now ≡ sign_text sign }
{
    match sign {
        Sign::Open => "(",
        Sign::Close => ")",
        Sign::Begin => "{",
        Sign::End => "}",
        Sign::Comma => ",",
        Sign::Semicolon => ";",
        Sign::Assign => "=",
        Sign::Equal => "==",
        Sign::Different => "!=",
        Sign::Less => "<",
        Sign::Plus => "+",
        Sign::Minus => "-",
        Sign::And => "&",
        Sign::Or => "|",
        Sign::Fn => "fn",
        Sign::Var => "var",
        Sign::If => "if",
        Sign::Else => "else",
        Sign::While => "while",
        Sign::Return => "return",
        Sign::Put => "put",
        Sign::Get => "get",
        Sign::Halt => "halt",
    }
}

/// The sign or reserved word with this spelling.
pub(crate) fn find_sign(text: &[u8]) -> Option<Sign>
    ensures { result ≡ find_sign text.now }
{
    SIGNS
        .iter()
        .copied()
        .find(|sign| sign_text(*sign).as_bytes() == text)
}
