// The checksum of a picture: CRC-32, by which a panel tests itself.
#![tactic(auto)]

ghost use Rattle.std.specs.Prelude.{◌≡◌};
ghost use Rattle.crc.specs.Crc.{crc_of, crc_byte, crc_bit};

// What is added where a bit falls out: CRC-32's polynomial, its lowest power first.
pub const POLYNOMIAL: u32 = 0xEDB88320;

// One bit falls out of the remainder.
#[tactic(auto, unfolding(crate::specs::Crc::crc_bit))]
fn bit(c: u32) -> u32
    ensures { result ≡ crc_bit c }
{
    if c % 2 == 0 {
        return c / 2;
    }
    (c / 2) ^ POLYNOMIAL
}

// A byte goes into the remainder: its eight bits, one after the other.
#[tactic(auto, unfolding(crate::specs::Crc::crc_byte))]
fn byte(c: u32, b: u8) -> u32
    ensures { result ≡ crc_byte c b }
{
    bit(bit(bit(bit(bit(bit(bit(bit(c ^ (b as u32)))))))))
}

// The CRC-32 of bytes, as zlib and Ethernet have it.
#[tactic(auto, unfolding(crate::specs::Crc::crc_of))]
pub fn crc(bytes: &[u8]) -> u32
    ensures { result ≡ crc_of bytes.now }
{
    let mut c: u32 = 0xFFFFFFFF;
    for b in bytes {
        c = byte(c, *b);
    }
    c ^ 0xFFFFFFFF
}
