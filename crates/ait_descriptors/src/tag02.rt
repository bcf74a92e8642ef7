// 0x02, the transport protocol descriptor, by its protocol.
ghost use Rattle.std.specs.Prelude.{◌≡◌};
ghost use Rattle.ait_descriptors.specs.Tag02.{selector1, selector, good02, bases_in, extensions_in, base_of, extension_read, described1, described02};

use crate::kinds::fills;
use crate::parts::{count_within, rest_of, tagged_rest};
use crate::{Described, Kind, Span};
use wire::{byte_at, eight_at, sixteen_at};

// Protocol 1, a carousel, without a remote connection and with one.
#[derive(Clone, Copy)]
pub struct Local {
    pub label: u8,
    pub component: u8,
}

#[derive(Clone, Copy)]
pub struct Remote {
    pub label: u8,
    pub network: u16,
    pub transport: u16,
    pub service: u16,
    pub component: u8,
}

// Protocol 3, how many bases there are.
#[derive(Clone, Copy)]
pub struct Bases {
    pub label: u8,
    pub bases: usize,
}

#[derive(Clone, Copy)]
pub struct Base {
    pub text: Span,
    pub extensions: usize,
}

// Any other protocol, its selector as it is.
#[derive(Clone, Copy)]
pub struct Selector {
    pub protocol: u16,
    pub label: u8,
    pub selector: Span,
}

pub fn is_good02(c: &[u8]) -> bool
    ensures { result ≡ good02 c.now }
{
    if c.len() < 3 {
        return false;
    }
    is_selector(sixteen_at(c, 0), &c[3..])
}

fn is_selector(protocol: u16, c: &[u8]) -> bool
    ensures { result ≡ selector protocol c.now }
{
    match protocol {
        1 => is_selector1(c),
        3 => fills(Kind::Base, c),
        _ => true,
    }
}

fn is_selector1(c: &[u8]) -> bool
    ensures { result ≡ selector1 c.now }
{
    if byte_at(c, 0) >> 7 == 1 {
        return c.len() == 8;
    }
    c.len() == 2
}

pub fn bases_in(d: &[u8]) -> Option<Span>
    ensures { result ≡ bases_in d.now }
{
    if sixteen_at(d, 2) != 3 {
        return None;
    }
    tagged_rest(d, 0x02, 5)
}

// The extensions of a base: after its length, its bytes and their count.
pub fn extensions_in(x: &[u8]) -> Option<Span>
    ensures { result ≡ extensions_in x.now }
{
    wire::rest(x, 2 + eight_at(x, 0))
}

pub fn base_of(x: &[u8], a: u16) -> Base
    ensures { result ≡ base_of x.now a }
{
    let n = eight_at(x, 0);
    let text = Span {
        start: a as usize + 1,
        size: n,
    };
    Base {
        text,
        extensions: eight_at(x, 1 + n),
    }
}

pub fn extension_of(x: &[u8], a: u16) -> Span
    ensures { result ≡ extension_read x.now a }
{
    rest_of(x, 1, a)
}

pub fn described_02(d: &[u8], a: u16) -> Described
    ensures { result ≡ described02 d.now a }
{
    let protocol = sixteen_at(d, 2);
    match protocol {
        1 => described_1(d),
        3 => Described::Bases(Bases {
            label: byte_at(d, 4),
            bases: count_within(d, bases_in(d), Kind::Base),
        }),
        _ => Described::Selector(Selector {
            protocol,
            label: byte_at(d, 4),
            selector: rest_of(d, 5, a),
        }),
    }
}

// Protocol 1, with or without a remote connection.
fn described_1(d: &[u8]) -> Described
    ensures { result ≡ described1 d.now }
{
    let label = byte_at(d, 4);
    if byte_at(d, 5) >> 7 == 1 {
        return Described::Remote(Remote {
            label,
            network: sixteen_at(d, 6),
            transport: sixteen_at(d, 8),
            service: sixteen_at(d, 10),
            component: byte_at(d, 12),
        });
    }
    Described::Local(Local {
        label,
        component: byte_at(d, 6),
    })
}
