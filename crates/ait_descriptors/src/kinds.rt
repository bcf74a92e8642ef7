// Items of every kind: the size of the one that a slice begins with, none where it begins with no whole
// one; whether items fill a slice, and how many there are.
ghost use Rattle.std.specs.Prelude.{◌≡◌, cond, ◌+◌, ◌≤◌, ◌<◌, leb, length, drop, IfSome};
ghost use Rattle.wire.specs.Items.{sized, fills, count};
ghost use Rattle.ait_descriptors.specs.Kinds.{size_of};

use crate::Kind;
use crate::tag02_size::base_size;

// One line for each kind: the bytes of its header, and how many more there are, or which byte of
// the header says it.
pub fn size_of(kind: Kind, s: &[u8]) -> Option<usize>
    ensures { result ≡ sized (size_of kind s.now) }
{
    match kind {
        Kind::Application => framed_size(s, 9, wire::twelve_at(s, 7)),
        Kind::Descriptor => wire::measured_size(s, 2, 1),
        Kind::Profile => framed_size(s, 5, 0),
        Kind::Label => framed_size(s, 1, 0),
        Kind::Name => wire::measured_size(s, 4, 3),
        Kind::Base => base_size(s),
        Kind::Extension => wire::measured_size(s, 1, 0),
        Kind::Identifier => framed_size(s, 7, 0),
    }
}

// The size of the item at byte i. It ends within the slice.
pub fn size_at(kind: Kind, s: &[u8], i: usize) -> Option<usize>
    requires { i ≤ length s.now }
    ensures { (result ≡ sized (size_of kind (drop i s.now))) × IfSome result (λ n. i + n ≤ length s.now) }
{
    size_of(kind, &s[i..])
}

// Whether the items end exactly where `s` ends.
pub fn fills(kind: Kind, s: &[u8]) -> bool
    ensures { result ≡ fills (size_of kind) s.now }
{
    let mut i = 0;
    while let Some(n) = size_at(kind, s, i) {
        i += n;
    }
    i == s.len()
}

// How many items a list begins with.
pub fn count(kind: Kind, s: &[u8]) -> usize
    ensures { result ≡ count (size_of kind) s.now }
{
    let mut m: usize = 0;
    let mut i = 0;
    while let Some(n) = size_at(kind, s, i) {
        m += 1;
        i += n;
    }
    m
}

// A header of `h` bytes and `m` bytes more, where they are all there.
fn framed_size(s: &[u8], h: usize, m: usize) -> Option<usize>
    requires { 0 < h }
    ensures { result ≡ sized (cond (leb (h + m) (length s.now)) (h + m) 0) }
{
    if s.len().checked_sub(h)? < m {
        return None;
    }
    Some(h + m)
}
