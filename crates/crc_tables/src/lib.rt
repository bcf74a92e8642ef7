// The CRC sixteen bytes at a time, by sixteen tables of 256 words that the caller lends: table k at
// k * 256, in it for each byte the register that it leaves of a clear one when k clear bytes follow.
//
// A constant array is stored anew wherever it is named, so the tables are made once, by `tables`, in
// a local of whoever checks sections, and lent from there. What `crc_by` answers is said for every
// list that is lent (specs/By.antt); that by the tables of `tables` it is the CRC is `by-tables` of
// proofs/Laws/Right.antt.
#![tactic(auto)]

mod make;

ghost use Rattle.std.specs.Prelude.{◌≡◌, ◌<◌, ◌≤◌, length};
ghost use Rattle.section.specs.Crc.{crc_of};
ghost use Rattle.crc_tables.specs.By.{◌⊕◌, entry_of, four, sixteen, ones, from_clear, up_to15, crc_by};

pub use make::{WORDS, tables};

// The register after all bytes of `s`, by these tables; by the CRC's own bits where they are too few.
pub fn crc_by(tables: &[u32], s: &[u8]) -> u32
    ensures { result ≡ crc_by tables.now s.now }
{
    if tables.len() < WORDS {
        return section::crc(s);
    }
    let mut r: u32 = 0xFFFF_FFFF;
    let mut rest = s;
    while 16 <= rest.len() {
        r = with_sixteen(tables, r, rest);
        rest = &rest[16..];
    }
    up_to_15(tables, r, rest)
}

// Below so many bytes the CRC's own bits are as quick as making the tables.
const PAYS: usize = 112;

// The same by tables of its own, where they pay: for one slice.
pub fn crc_of(s: &[u8]) -> u32
    ensures { result ≡ crc_of s.now }
{
    if s.len() < PAYS {
        return section::crc(s);
    }
    let t = tables();
    crc_by(&t, s)
}

// The register `r` after the first sixteen bytes of `s`. What rests on `r` comes last: the other
// entries are read before it is known.
fn with_sixteen(t: &[u32], r: u32, s: &[u8]) -> u32
    requires { (4096 ≤ length t.now) × (16 ≤ length s.now) }
    ensures { result ≡ sixteen t.now r s.now }
{
    with_four(t, 8, 0, &s[4..])
        ^ with_four(t, 4, 0, &s[8..])
        ^ with_four(t, 0, 0, &s[12..])
        ^ with_four(t, 12, r, s)
}

// The register `r` after all bytes of `s`, which are under sixteen: each by the table that counts
// those after it.
fn up_to_15(t: &[u32], r: u32, s: &[u8]) -> u32
    requires { (4096 ≤ length t.now) × (length s.now < 16) }
    ensures { result ≡ up_to15 t.now r s.now }
{
    if s.len() < 4 {
        return with_ones(t, r, s);
    }
    let k = s.len() - 4;
    from_clear(t, &s[4..]) ^ with_four(t, k, r, s)
}

// What the bytes of `s`, under sixteen, leave of a clear register.
fn from_clear(t: &[u32], s: &[u8]) -> u32
    requires { (4096 ≤ length t.now) × (length s.now < 16) }
    ensures { result ≡ from_clear t.now s.now }
{
    let mut x: u32 = 0;
    for i in 0..s.len() {
        x ^= entry(t, s.len() - 1 - i, 0, s[i]);
    }
    x
}

// The register `r` after the first four bytes of `s` and `k` clear ones.
fn with_four(t: &[u32], k: usize, r: u32, s: &[u8]) -> u32
    requires { (k ≤ 12) × (4096 ≤ length t.now) × (4 ≤ length s.now) }
    ensures { result ≡ four t.now k r s.now }
{
    entry(t, k + 3, r >> 24, s[0])
        ^ entry(t, k + 2, r >> 16, s[1])
        ^ entry(t, k + 1, r >> 8, s[2])
        ^ entry(t, k, r, s[3])
}

// The register `r` after all bytes of `s`, one after the other.
fn with_ones(t: &[u32], r: u32, s: &[u8]) -> u32
    requires { 4096 ≤ length t.now }
    ensures { result ≡ ones t.now r s.now }
{
    let mut x = r;
    for b in s {
        x = (x << 8) ^ entry(t, 0, x >> 24, *b);
    }
    x
}

// The entry of table `k` at the low byte of `x` with `b` added without carry.
fn entry(t: &[u32], k: usize, x: u32, b: u8) -> u32
    requires { (k < 16) × (4096 ≤ length t.now) }
    ensures { result ≡ entry_of t.now k (x ⊕ b) }
{
    t[k * 256 + ((x as usize) ^ (b as usize)) % 256]
}
