//! The signs and dotted words of the microassembly language, each with its spelling.

ghost use Rattle.std.specs.Prelude.{◌≡◌};
ghost use Rattle.mal_tokens.specs.Words.{find_sign, sign_text};

/// A sign or a dotted word.
#[derive(Clone, Copy, Debug, PartialEq, Eq)]
pub enum Sign {
    Equals,
    Plus,
    Minus,
    Semicolon,
    Colon,
    Open,
    Close,
    Left,
    Right,
    Label,
    Default,
}

const SIGNS: [Sign; 11] = [
    Sign::Equals,
    Sign::Plus,
    Sign::Minus,
    Sign::Semicolon,
    Sign::Colon,
    Sign::Open,
    Sign::Close,
    Sign::Left,
    Sign::Right,
    Sign::Label,
    Sign::Default,
];

impl Sign {
    pub fn text(self) -> &'static str
        ensures { result.now ≡ sign_text self }
    {
        match self {
            Sign::Equals => "=",
            Sign::Plus => "+",
            Sign::Minus => "-",
            Sign::Semicolon => ";",
            Sign::Colon => ":",
            Sign::Open => "(",
            Sign::Close => ")",
            Sign::Left => "<<",
            Sign::Right => ">>",
            Sign::Label => ".label",
            Sign::Default => ".default",
        }
    }

    /// The sign with this spelling.
    pub fn find(text: &[u8]) -> Option<Sign>
        ensures { result ≡ find_sign text.now }
    {
        SIGNS
            .iter()
            .copied()
            .find(|sign| sign.text().as_bytes() == text)
    }
}
