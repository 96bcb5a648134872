//! The check sum of an address.
ghost use Rattle.std.specs.Prelude.{◌≡◌};
ghost use Rattle.scp_strkey.specs.Crc.{crc_bit, crc_bits, crc_byte, crc};

/// x^12 + x^5 + 1; the x^16 is the bit that a shift drops.
const POLYNOMIAL: u16 = 0x1021;

/// The highest bit of 16.
const HIGH_BIT: u16 = 0x8000;

/// How many bits a byte has.
const BITS: u32 = 8;

/// One bit further on.
#[tactic(auto, unfolding(crate::specs::Crc::crc_bit))]
fn after_bit(crc: u16) -> u16
    ensures { result ≡ crc_bit crc }
{
    if crc < HIGH_BIT {
        return crc * 2;
    }
    ((crc - HIGH_BIT) * 2) ^ POLYNOMIAL
}

/// One byte further on.
#[tactic(auto, unfolding(crate::specs::Crc::crc_bits))]
fn after_byte(crc: u16, byte: u8) -> u16
    ensures { result ≡ crc_byte crc byte }
{
    let mut crc = crc ^ (u16::from(byte) * 256);
    for _bit in 0..BITS {
        crc = after_bit(crc);
    }
    crc
}

/// The check sum of the bytes: the remainder of the division by x^16 + x^12 + x^5 + 1, from 0, highest bit first.
pub fn crc_of(bytes: &[u8]) -> u16
    ensures { result ≡ crc bytes.now }
{
    let mut sum = 0;
    for byte in bytes {
        sum = after_byte(sum, *byte);
    }
    sum
}
