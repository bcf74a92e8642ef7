// 0x00, the application descriptor.
ghost use Rattle.std.specs.Prelude.{◌≡◌};
ghost use Rattle.ait_descriptors.specs.Tag00.{good00, profiles_in, labels_in, profile_of, described00};

use crate::parts::{count_within, tagged_rest};
use crate::{Described, Kind, Span};
use wire::{byte_at, eight_at, sixteen_at};

#[derive(Clone, Copy)]
pub struct Profile {
    pub number: u16,
    pub major: u8,
    pub minor: u8,
    pub micro: u8,
}

// How many profiles and labels it has, and what stands between them.
#[derive(Clone, Copy)]
pub struct ApplicationDescriptor {
    pub profiles: usize,
    pub bound: u8,
    pub visibility: u8,
    pub priority: u8,
    pub labels: usize,
}

pub fn is_good00(c: &[u8]) -> bool
    ensures { result ≡ good00 c.now }
{
    let p = eight_at(c, 0);
    if p % 5 != 0 {
        return false;
    }
    3 + p <= c.len()
}

pub fn profiles_in(d: &[u8]) -> Option<Span>
    ensures { result ≡ profiles_in d.now }
{
    if byte_at(d, 0) != 0x00 {
        return None;
    }
    wire::bytes_at(d, 3, eight_at(d, 2))
}

pub fn labels_in(d: &[u8]) -> Option<Span>
    ensures { result ≡ labels_in d.now }
{
    tagged_rest(d, 0x00, 5 + eight_at(d, 2))
}

pub fn profile_of(x: &[u8]) -> Profile
    ensures { result ≡ profile_of x.now }
{
    Profile {
        number: sixteen_at(x, 0),
        major: byte_at(x, 2),
        minor: byte_at(x, 3),
        micro: byte_at(x, 4),
    }
}

pub fn described_00(d: &[u8]) -> Described
    ensures { result ≡ described00 d.now }
{
    let n = eight_at(d, 2);
    let flags = byte_at(d, 3 + n);
    Described::Application(ApplicationDescriptor {
        profiles: count_within(d, profiles_in(d), Kind::Profile),
        bound: flags >> 7,
        visibility: (flags >> 5) & 0x03,
        priority: byte_at(d, 4 + n),
        labels: count_within(d, labels_in(d), Kind::Label),
    })
}
