// Parts of a descriptor, whatever its tag.
ghost use Rattle.std.specs.Prelude.{◌≡◌, ◌<◌};
ghost use Rattle.ait_descriptors.specs.Descriptor.{tagged_rest, rest_of};
ghost use Rattle.ait_descriptors.specs.Kinds.{count_at};

use crate::kinds::count;
use crate::{Kind, Span};
use wire::byte_at;

// How many items of a kind lie at a place.
pub fn count_within(s: &[u8], p: Option<Span>, kind: Kind) -> usize
    ensures { result ≡ count_at kind p s.now }
{
    let Some(Span { start, size }) = p else {
        return 0;
    };
    let Some(from) = s.get(start..) else {
        return 0;
    };
    count(kind, &from[..size.min(from.len())])
}

// What follows the first `at` bytes of a descriptor with a tag.
pub fn tagged_rest(d: &[u8], tag: u8, at: usize) -> Option<Span>
    ensures { result ≡ tagged_rest tag at d.now }
{
    if byte_at(d, 0) != tag {
        return None;
    }
    wire::rest(d, at)
}

// What follows the first `h` bytes of a thing that begins at `a`.
pub fn rest_of(x: &[u8], h: usize, a: u16) -> Span
    requires { h < 65536 }
    ensures { result ≡ rest_of h x.now a }
{
    let start = a as usize + h;
    if x.len() < h {
        return Span { start, size: 0 };
    }
    Span {
        start,
        size: x.len() - h,
    }
}
