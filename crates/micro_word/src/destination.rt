//! The registers that the C bus can load, each with its bit of the field C.
ghost use Rattle.std.specs.Prelude.{◌≡◌, ◌<◌};
ghost use Rattle.micro_word.specs.Destinations.{register_bit, loads};

/// A register that the C bus can load. They stand in the order of their bits, the most significant first.
#[derive(Clone, Copy, Debug, PartialEq, Eq)]
pub enum Destination {
    H,
    Opc,
    Tos,
    Cpp,
    Lv,
    Sp,
    Pc,
    Mdr,
    Mar,
}

impl Destination {
    /// Its bit of the field C.
    pub const fn bit(self) -> u16
        ensures value { result ≡ register_bit self }
        ensures positive { 0 < result }
        ensures within { result < 512 }
    {
        match self {
            Destination::H => 0b1_0000_0000,
            Destination::Opc => 0b0_1000_0000,
            Destination::Tos => 0b0_0100_0000,
            Destination::Cpp => 0b0_0010_0000,
            Destination::Lv => 0b0_0001_0000,
            Destination::Sp => 0b0_0000_1000,
            Destination::Pc => 0b0_0000_0100,
            Destination::Mdr => 0b0_0000_0010,
            Destination::Mar => 0b0_0000_0001,
        }
    }
}
