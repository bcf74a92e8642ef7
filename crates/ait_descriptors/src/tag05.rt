// 0x05, the external application authorisation descriptor.
ghost use Rattle.std.specs.Prelude.{◌≡◌};
ghost use Rattle.ait_descriptors.specs.Tag05.{good05, identifiers_in, identifier_of, described05};

use crate::kinds::fills;
use crate::parts::{count_within, tagged_rest};
use crate::{Described, Kind, Span};
use wire::{byte_at, sixteen_at, thirty_two_at};

#[derive(Clone, Copy)]
pub struct Identifier {
    pub organisation: u32,
    pub number: u16,
    pub priority: u8,
}

pub fn is_good05(c: &[u8]) -> bool
    ensures { result ≡ good05 c.now }
{
    fills(Kind::Identifier, c)
}

pub fn identifiers_in(d: &[u8]) -> Option<Span>
    ensures { result ≡ identifiers_in d.now }
{
    tagged_rest(d, 0x05, 2)
}

pub fn identifier_of(x: &[u8]) -> Identifier
    ensures { result ≡ identifier_of x.now }
{
    Identifier {
        organisation: thirty_two_at(x, 0),
        number: sixteen_at(x, 4),
        priority: byte_at(x, 6),
    }
}

pub fn described_05(d: &[u8]) -> Described
    ensures { result ≡ described05 d.now }
{
    Described::Identifiers(count_within(d, identifiers_in(d), Kind::Identifier))
}
