// Where things lie: each finder is one step within the part that the one before found.
ghost use Rattle.std.specs.Prelude.{◌≡◌, ◌+◌, ◌<◌, Some};
ghost use Rattle.ait_read.specs.Places.{moved, common_in, loop_in, body_at, common_at, loop_at, application_at, own_at, scope_at, descriptor_at, list_at, repeated_at, extensions_at, extension_at};

use crate::{Scope, part};
use ait_descriptors::{Kind, Repeated, Span, extensions_in, item_place, kind_of, list_in};
use wire::rest;

// A place within a part, as one of the whole.
fn within(outer: Span, inner: Option<Span>) -> Option<Span>
    requires { (p : _) → inner ≡ Some p → outer.start + p.start < 18446744073709551616 }
    ensures { result ≡ moved outer.start inner }
{
    let found = inner?;
    let start = outer.start + found.start;
    Some(Span { start, ..found })
}

// Between the header's 8 bytes and the CRC's 4.
fn body_place(s: &[u8]) -> Option<Span>
    ensures { result ≡ body_at s.now }
{
    let size = s.len().checked_sub(12)?;
    Some(Span { start: 8, size })
}

// In a body: its common descriptors, and its applications.
fn common_in(b: &[u8]) -> Option<Span>
    ensures { result ≡ common_in b.now }
{
    wire::bytes_at(b, 2, wire::twelve_at(b, 0))
}

fn loop_in(b: &[u8]) -> Option<Span>
    ensures { result ≡ loop_in b.now }
{
    rest(b, 4 + wire::twelve_at(b, 0))
}

pub fn common_place(s: &[u8]) -> Option<Span>
    ensures { result ≡ common_at s.now }
{
    let body = body_place(s)?;
    within(body, common_in(part(s, body)))
}

pub fn loop_place(s: &[u8]) -> Option<Span>
    ensures { result ≡ loop_at s.now }
{
    let body = body_place(s)?;
    within(body, loop_in(part(s, body)))
}

pub fn application_place(s: &[u8], i: usize) -> Option<Span>
    ensures { result ≡ application_at i s.now }
{
    let list = loop_place(s)?;
    within(list, item_place(Kind::Application, part(s, list), i))
}

// An application's own descriptors follow its nine bytes.
pub fn own_place(s: &[u8], i: usize) -> Option<Span>
    ensures { result ≡ own_at i s.now }
{
    let application = application_place(s, i)?;
    within(application, rest(part(s, application), 9))
}

fn scope_place(s: &[u8], scope: Scope) -> Option<Span>
    ensures { result ≡ scope_at scope s.now }
{
    match scope {
        Scope::Common => common_place(s),
        Scope::Own(i) => own_place(s, i),
    }
}

pub fn descriptor_place(s: &[u8], scope: Scope, j: usize) -> Option<Span>
    ensures { result ≡ descriptor_at scope j s.now }
{
    let list = scope_place(s, scope)?;
    within(list, item_place(Kind::Descriptor, part(s, list), j))
}

fn list_place(s: &[u8], scope: Scope, j: usize, what: Repeated) -> Option<Span>
    ensures { result ≡ list_at scope j what s.now }
{
    let descriptor = descriptor_place(s, scope, j)?;
    within(descriptor, list_in(part(s, descriptor), what))
}

pub fn repeated_place(s: &[u8], scope: Scope, j: usize, what: Repeated, k: usize) -> Option<Span>
    ensures { result ≡ repeated_at scope j what k s.now }
{
    let list = list_place(s, scope, j, what)?;
    within(list, item_place(kind_of(what), part(s, list), k))
}

fn extensions_place(s: &[u8], scope: Scope, j: usize, k: usize) -> Option<Span>
    ensures { result ≡ extensions_at scope j k s.now }
{
    let base = repeated_place(s, scope, j, Repeated::Bases, k)?;
    within(base, extensions_in(part(s, base)))
}

pub fn extension_place(s: &[u8], scope: Scope, j: usize, k: usize, m: usize) -> Option<Span>
    ensures { result ≡ extension_at scope j k m s.now }
{
    let list = extensions_place(s, scope, j, k)?;
    within(list, item_place(Kind::Extension, part(s, list), m))
}
