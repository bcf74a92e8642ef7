// The sixteen tables, made by doubling: an entry is the sum without carry of those of its bits, so
// that each word is one that stands already and one that all of its half share.
ghost use Rattle.std.specs.Prelude.{◌≡◌, ℕ, ◌+◌, ◌/◌, ◌%◌, ◌^◌, ◌≤◌, length, take};
ghost use Rattle.section.specs.Crc.{crc_bit};
ghost use Rattle.crc_tables.specs.Tables.{left, first_entries, crc_tables};

// Sixteen tables.
pub const WORDS: usize = 4096;

const GENERATOR: u32 = 0x04C1_1DB7;

// The tables of the CRC. The first begins with what the byte 1 leaves of a clear register.
pub fn tables() -> [u32; WORDS]
    ensures { result ≡ crc_tables }
{
    let mut t: [u32; WORDS] = [0; WORDS];
    let mut x: u32 = GENERATOR;
    for k in 0..16usize {
        x = fill(&mut t, k * 256, x);
    }
    t
}

// Makes the table at `at` from its entry 1, doubling what stands; answers entry 1 of the next.
fn fill(t: &mut [u32], at: usize, first: u32) -> u32
    requires { (at % 256 ≡ 0) × (at + 256 ≤ length t.old) × (take at t.old ≡ first_entries at) × (first ≡ left (at / 256) 1) }
    ensures { (take (at + 256) t.new ≡ first_entries (at + 256)) × (result ≡ left (at / 256 + 1) 1) }
{
    t[at] = 0;
    let mut x = first;
    for n in 0..8u32 {
        double(t, at, 1 << n, x);
        x = with_zero(x);
    }
    x
}

// Of the table at `at` the first `w` entries stand: makes as many more, each one of them with `x`
// added, the entry of `w`.
fn double(t: &mut [u32], at: usize, w: usize, x: u32)
    requires { (at % 256 ≡ 0) × (at + 256 ≤ length t.old) × (w ≤ 128) × ((n : ℕ) × (w ≡ 2 ^ n)) × (take (at + w) t.old ≡ first_entries (at + w)) × (x ≡ left (at / 256) w) }
    ensures { take (at + w + w) t.new ≡ first_entries (at + w + w) }
{
    for j in 0..w {
        t[at + w + j] = t[at + j] ^ x;
    }
}

// The register `r` after a clear bit, as section takes one: its own step is not public.
fn with_zero(r: u32) -> u32
    ensures { result ≡ crc_bit r 0 }
{
    let up = r << 1;
    if r >> 31 == 0 {
        return up;
    }
    up ^ GENERATOR
}
