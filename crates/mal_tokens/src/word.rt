//! The reserved words of the microassembly language, each with its spelling.

ghost use Rattle.std.specs.Prelude.{◌≡◌};
ghost use Rattle.mal_tokens.specs.Words.{find_word, word_text};

/// A reserved word of the microassembly language, which cannot be a label.
#[derive(Clone, Copy, Debug, PartialEq, Eq)]
pub enum Word {
    Mar,
    Mdr,
    Pc,
    Sp,
    Lv,
    Cpp,
    Tos,
    Opc,
    H,
    Mbr,
    Mbru,
    Mbr1,
    Mbr1u,
    Mbr2,
    Mbr2u,
    N,
    Z,
    And,
    Or,
    Not,
    Rd,
    Wr,
    Fetch,
    Goto,
    If,
    Else,
}

const WORDS: [Word; 26] = [
    Word::Mar,
    Word::Mdr,
    Word::Pc,
    Word::Sp,
    Word::Lv,
    Word::Cpp,
    Word::Tos,
    Word::Opc,
    Word::H,
    Word::Mbr,
    Word::Mbru,
    Word::Mbr1,
    Word::Mbr1u,
    Word::Mbr2,
    Word::Mbr2u,
    Word::N,
    Word::Z,
    Word::And,
    Word::Or,
    Word::Not,
    Word::Rd,
    Word::Wr,
    Word::Fetch,
    Word::Goto,
    Word::If,
    Word::Else,
];

impl Word {
    pub fn text(self) -> &'static str
        ensures { result.now ≡ word_text self }
    {
        match self {
            Word::Mar => "MAR",
            Word::Mdr => "MDR",
            Word::Pc => "PC",
            Word::Sp => "SP",
            Word::Lv => "LV",
            Word::Cpp => "CPP",
            Word::Tos => "TOS",
            Word::Opc => "OPC",
            Word::H => "H",
            Word::Mbr => "MBR",
            Word::Mbru => "MBRU",
            Word::Mbr1 => "MBR1",
            Word::Mbr1u => "MBR1U",
            Word::Mbr2 => "MBR2",
            Word::Mbr2u => "MBR2U",
            Word::N => "N",
            Word::Z => "Z",
            Word::And => "AND",
            Word::Or => "OR",
            Word::Not => "NOT",
            Word::Rd => "rd",
            Word::Wr => "wr",
            Word::Fetch => "fetch",
            Word::Goto => "goto",
            Word::If => "if",
            Word::Else => "else",
        }
    }

    /// The reserved word with this spelling.
    pub fn find(text: &[u8]) -> Option<Word>
        ensures { result ≡ find_word text.now }
    {
        WORDS
            .iter()
            .copied()
            .find(|word| word.text().as_bytes() == text)
    }
}
