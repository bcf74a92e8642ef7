// Numbers and items in bytes; nothing of DVB.
//
// A byte past the end of a slice reads as 0, so every reader answers for every slice and every
// place, and asks nothing of its caller. What a field is, is said in specs/Fields.antt; what a list
// of items is, and what lies where, in specs/Items.antt and specs/Places.antt; what the first of
// some numbered tests is, in specs/Tests.antt; what bytes laid over others are, in specs/Copies.antt.
#![tactic(auto)]

mod copies;

ghost use Rattle.std.specs.Prelude.{◌≡◌, ◌<◌, take, drop};
ghost use Rattle.wire.specs.Places.{after, bytes};
ghost use Rattle.wire.specs.Items.{measured, sized, items, end_at};
ghost use Rattle.wire.specs.Fields.{byte_at, twelve_at, sixteen_at, thirty_two_at};

pub use copies::{copy_at, is_equal};

// A part of a slice: where it starts and how many bytes it has.
#[derive(Clone, Copy)]
pub struct Span {
    pub start: usize,
    pub size: usize,
}

// The byte at a place.
pub fn byte_at(s: &[u8], at: usize) -> u8
    ensures { (result ≡ byte_at s.now at) × (result < 256) }
{
    if s.len() <= at {
        return 0;
    }
    s[at]
}

// The byte at a place, as a length.
pub fn eight_at(s: &[u8], at: usize) -> usize
    ensures { (result ≡ byte_at s.now at) × (result < 256) }
{
    byte_at(s, at) as usize
}

// The 16 bits of the two bytes from a place on.
pub fn sixteen_at(s: &[u8], at: usize) -> u16
    ensures { (result ≡ sixteen_at s.now at) × (result < 65536) }
{
    if s.len() <= at {
        return 0;
    }
    ((byte_at(s, at) as u16) << 8) | byte_at(s, at + 1) as u16
}

// The 12 low bits of the two bytes from a place on.
pub fn twelve_at(s: &[u8], at: usize) -> usize
    ensures { (result ≡ twelve_at s.now at) × (result < 4096) }
{
    sixteen_at(s, at) as usize & 0x0FFF
}

// The 32 bits of the four bytes from a place on.
pub fn thirty_two_at(s: &[u8], at: usize) -> u32
    ensures { (result ≡ thirty_two_at s.now at) × (result < 4294967296) }
{
    if s.len() <= at {
        return 0;
    }
    let from = &s[at..];
    ((sixteen_at(from, 0) as u32) << 16) | sixteen_at(from, 2) as u32
}

// The size of the item that a slice begins with: a header of `h` bytes, whose byte `at` says how
// many bytes follow. None where they are not all there, and of an item of no bytes.
pub fn measured_size(s: &[u8], h: usize, at: usize) -> Option<usize>
    ensures { result ≡ sized (measured h at s.now) }
{
    if s.len() < h {
        return None;
    }
    let m = said_at(s, h, at);
    if s.len() - h < m {
        return None;
    }
    if h + m == 0 {
        return None;
    }
    Some(h + m)
}

// What the header says; a header that does not reach to its byte `at` says 0.
fn said_at(s: &[u8], h: usize, at: usize) -> usize
    ensures { result ≡ byte_at (take h s.now) at }
{
    if h <= at {
        return 0;
    }
    eight_at(s, at)
}

// Where the first `count` such items from `start` on end, if there are as many.
pub fn measured_end(s: &[u8], start: usize, count: usize, h: usize, at: usize) -> Option<usize>
    ensures { result ≡ end_at count start (items (measured h at) (drop start s.now)) }
{
    let mut i = start;
    for k in 0..count {
        if s.len() <= i {
            return None;
        }
        i += measured_size(&s[i..], h, at)?;
    }
    Some(i)
}

// What follows the first `at` bytes.
pub fn rest(x: &[u8], at: usize) -> Option<Span>
    ensures { result ≡ after at x.now }
{
    let size = x.len().checked_sub(at)?;
    Some(Span { start: at, size })
}

// The `n` bytes from `at` on.
pub fn bytes_at(x: &[u8], at: usize, n: usize) -> Option<Span>
    ensures { result ≡ bytes at n x.now }
{
    if x.len() < at {
        return None;
    }
    if x.len() - at < n {
        return None;
    }
    Some(Span { start: at, size: n })
}
