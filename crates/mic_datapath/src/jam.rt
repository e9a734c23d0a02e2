//! The address of the next word, by the control bits.

ghost use Rattle.std.specs.Prelude.{◌≡◌, ◌<◌, ◌==◌};
ghost use Rattle.mic_words.specs.Prelude.{is_negative};
ghost use Rattle.mic_datapath.specs.Next.{GoesTo};
ghost use Rattle.mic_datapath.specs.Jam.{low_bits, jammed};

/// With JMPC the low bits are those of Addr OR the byte.
fn low_part(addr: u16, jam: u8, byte: u8) -> u16
    ensures bits { result ≡ low_bits addr jam byte }
    ensures small { result < 256 }
{
    if jam / 4 % 2 == 1 {
        (addr % 256) | (byte as u16)
    } else {
        addr % 256
    }
}

/// The high bit is Addr[8] OR (JAMN AND N) OR (JAMZ AND Z).
fn jammed_address(addr: u16, jam: u8, value: u32, byte: u8) -> u16
    requires { addr < 512 }
    ensures bits { result ≡ jammed addr jam (is_negative value) (value == 0) byte }
    ensures small { result < 512 }
{
    // Most words go on to Addr.
    if jam == 0 {
        return addr;
    }
    let low = low_part(addr, jam, byte);
    let n = value >= 0x8000_0000;
    let z = value == 0;
    if addr / 256 % 2 == 1 || (jam / 2 % 2 == 1 && n) || (jam % 2 == 1 && z) {
        low + 256
    } else {
        low
    }
}

/// Where a statement whose next address has these bits goes, with this value out of the ALU and this byte for a dispatch.
pub fn next_address(addr: u16, jam: u8, value: u32, byte: u8) -> u16
    requires { addr < 512 }
    ensures next { GoesTo addr jam value byte result }
    ensures small { result < 512 }
{
    jammed_address(addr, jam, value, byte)
}
