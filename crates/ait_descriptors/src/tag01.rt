// 0x01, the application name descriptor.
ghost use Rattle.std.specs.Prelude.{◌≡◌};
ghost use Rattle.ait_descriptors.specs.Tag01.{good01, names_in, name_of, described01};

use crate::kinds::fills;
use crate::parts::{count_within, rest_of, tagged_rest};
use crate::{Described, Kind, Span};
use wire::byte_at;

// A name, and the three bytes of its language.
#[derive(Clone, Copy)]
pub struct Name {
    pub first: u8,
    pub second: u8,
    pub third: u8,
    pub text: Span,
}

pub fn is_good01(c: &[u8]) -> bool
    ensures { result ≡ good01 c.now }
{
    fills(Kind::Name, c)
}

pub fn names_in(d: &[u8]) -> Option<Span>
    ensures { result ≡ names_in d.now }
{
    tagged_rest(d, 0x01, 2)
}

pub fn name_of(x: &[u8], a: u16) -> Name
    ensures { result ≡ name_of x.now a }
{
    let text = rest_of(x, 4, a);
    Name {
        first: byte_at(x, 0),
        second: byte_at(x, 1),
        third: byte_at(x, 2),
        text,
    }
}

pub fn described_01(d: &[u8]) -> Described
    ensures { result ≡ described01 d.now }
{
    Described::Names(count_within(d, names_in(d), Kind::Name))
}
