//! The fields of a word.
ghost use Rattle.std.specs.Prelude.{◌≡◌, ◌<◌, ◌/◌, ◌%◌, ◌^◌};
ghost use Rattle.mic_words.specs.declared.machine.Machine.TheVariants.{Mic1, Mic2};
ghost use Rattle.micro_word.specs.Layout.{fields_of, word_with};

/// What stands in each field; 0 where the machine's word has no such field.
#[derive(Clone, Copy, Debug, PartialEq, Eq)]
pub struct Fields {
    pub addr: u16,
    /// JMPC JAMN JAMZ
    pub jam: u8,
    /// SLL8 SRA1
    pub shift: u8,
    /// F0 F1 ENA ENB INVA INC
    pub gates: u8,
    /// H OPC TOS CPP LV SP PC MDR MAR: the bits of `Destination`
    pub c: u16,
    /// WRITE READ
    pub mem: u8,
    pub fetch: u8,
    pub a: u8,
    pub b: u8,
}

/// The bits of a word from a place on, of this width.
pub(crate) fn field(word: u64, place: u32, width: u32) -> u64
    requires place { place < 64 }
    requires width { width < 64 }
    ensures { result ≡ word / 2 ^ place % 2 ^ width }
{
    (word >> place) & ((1 << width) - 1)
}

/// The fields of a word of Mic-1.
pub fn fields1(word: u64) -> Fields
    ensures { result ≡ fields_of Mic1 word }
{
    Fields {
        addr: field(word, 27, 9) as u16,
        jam: field(word, 24, 3) as u8,
        shift: field(word, 22, 2) as u8,
        gates: field(word, 16, 6) as u8,
        c: field(word, 7, 9) as u16,
        mem: field(word, 5, 2) as u8,
        fetch: field(word, 4, 1) as u8,
        a: 0,
        b: (word % 16) as u8,
    }
}

/// The fields of a word of Mic-2.
pub fn fields2(word: u64) -> Fields
    ensures { result ≡ fields_of Mic2 word }
{
    Fields {
        addr: field(word, 30, 9) as u16,
        jam: field(word, 27, 3) as u8,
        shift: field(word, 25, 2) as u8,
        gates: field(word, 19, 6) as u8,
        c: field(word, 10, 9) as u16,
        mem: field(word, 8, 2) as u8,
        fetch: 0,
        a: field(word, 4, 4) as u8,
        b: (word % 16) as u8,
    }
}

/// The word of Mic-1 with these fields.
pub(crate) fn word_with1(f: &Fields) -> u64
    ensures { result ≡ word_with Mic1 f.now }
{
    ((f.addr as u64) << 27)
        + ((f.jam as u64) << 24)
        + ((f.shift as u64) << 22)
        + ((f.gates as u64) << 16)
        + ((f.c as u64) << 7)
        + ((f.mem as u64) << 5)
        + ((f.fetch as u64) << 4)
        + f.b as u64
}

/// The word of Mic-2 with these fields.
pub(crate) fn word_with2(f: &Fields) -> u64
    ensures { result ≡ word_with Mic2 f.now }
{
    ((f.addr as u64) << 30)
        + ((f.jam as u64) << 27)
        + ((f.shift as u64) << 25)
        + ((f.gates as u64) << 19)
        + ((f.c as u64) << 10)
        + ((f.mem as u64) << 8)
        + ((f.a as u64) << 4)
        + f.b as u64
}
