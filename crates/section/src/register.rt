// The CRC, bit by bit.
ghost use Rattle.std.specs.Prelude.{◌≡◌};
ghost use Rattle.section.specs.Crc.{crc_bit, crc_byte, crc_of};

const GENERATOR: u32 = 0x04C1_1DB7;

// The register after all bytes of `s`.
pub fn crc(s: &[u8]) -> u32
    ensures { result ≡ crc_of s.now }
{
    let mut r: u32 = 0xFFFF_FFFF;
    for b in s {
        r = with_byte(r, *b);
    }
    r
}

// The register `r` after the byte `b`, whose most significant bit goes first.
fn with_byte(r: u32, b: u8) -> u32
    ensures { result ≡ crc_byte r b }
{
    let byte = b as u32;
    let mut x = r;
    for n in (0..8u32).rev() {
        x = with_bit(x, (byte >> n) & 1);
    }
    x
}

// The register `r` after the bit `d`: it moves up by one, and where the bit that leaves it is not
// `d`, the generator is added without carry.
fn with_bit(r: u32, d: u32) -> u32
    ensures { result ≡ crc_bit r d }
{
    let up = r << 1;
    if r >> 31 == d {
        return up;
    }
    up ^ GENERATOR
}
