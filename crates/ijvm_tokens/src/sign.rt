//! The signs and the dotted words.

ghost use Rattle.std.specs.Prelude.{◌≡◌};
ghost use Rattle.ijvm_tokens.specs.Signs.{find_sign, sign_text};

/// A sign or a dotted word.
#[derive(Clone, Copy, Debug, PartialEq, Eq)]
pub enum Sign {
    Open,
    Close,
    Comma,
    Colon,
    Constant,
    EndConstant,
    Main,
    EndMain,
    Method,
    EndMethod,
    Var,
    EndVar,
}

const SIGNS: [Sign; 12] = [
    Sign::Open,
    Sign::Close,
    Sign::Comma,
    Sign::Colon,
    Sign::Constant,
    Sign::EndConstant,
    Sign::Main,
    Sign::EndMain,
    Sign::Method,
    Sign::EndMethod,
    Sign::Var,
    Sign::EndVar,
];

impl Sign {
    pub fn text(self) -> &'static str
        ensures { result.now ≡ sign_text self }
    {
        match self {
            Sign::Open => "(",
            Sign::Close => ")",
            Sign::Comma => ",",
            Sign::Colon => ":",
            Sign::Constant => ".constant",
            Sign::EndConstant => ".end-constant",
            Sign::Main => ".main",
            Sign::EndMain => ".end-main",
            Sign::Method => ".method",
            Sign::EndMethod => ".end-method",
            Sign::Var => ".var",
            Sign::EndVar => ".end-var",
        }
    }

    /// The sign that is spelled so.
    pub fn find(text: &[u8]) -> Option<Sign>
        ensures { result ≡ find_sign text.now }
    {
        SIGNS
            .iter()
            .copied()
            .find(|sign| sign.text().as_bytes() == text)
    }
}
