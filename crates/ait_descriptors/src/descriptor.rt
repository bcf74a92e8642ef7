// Descriptors by their tag: a line for each tag, and for each sort of items.
ghost use Rattle.std.specs.Prelude.{◌≡◌, ◌+◌, ◌≤◌, length, take, drop};
ghost use Rattle.ait_descriptors.specs.Descriptor.{contents_of};
ghost use Rattle.ait_descriptors.specs.Contents.{contents_good, well_made, raw_fields, described_of, list_in, kind_of, item_of, test_of};

use crate::parts::rest_of;
use crate::tag00::*;
use crate::tag01::*;
use crate::tag02::*;
use crate::tag05::*;
use crate::tag15::described_15;
use crate::{Described, Item, Kind, Raw, Repeated, Span, Test};
use wire::byte_at;

// Whether the contents that go with a tag are well formed.
fn is_good(tag: u8, c: &[u8]) -> bool
    ensures { result ≡ contents_good tag c.now }
{
    match tag {
        0x00 => is_good00(c),
        0x01 => is_good01(c),
        0x02 => is_good02(c),
        0x05 => is_good05(c),
        _ => true,
    }
}

// What is read of a descriptor that begins at byte `a` of its section.
pub fn describe(d: &[u8], a: u16) -> Described
    ensures { result ≡ described_of d.now a }
{
    let tag = byte_at(d, 0);
    match tag {
        0x00 => described_00(d),
        0x01 => described_01(d),
        0x02 => described_02(d, a),
        0x05 => described_05(d),
        0x15 => described_15(d, a),
        _ => Described::Raw(raw_of(d, a)),
    }
}

// A descriptor of any other tag, its contents as they are.
fn raw_of(d: &[u8], a: u16) -> Raw
    ensures { result ≡ raw_fields d.now a }
{
    Raw {
        tag: byte_at(d, 0),
        contents: rest_of(d, 2, a),
    }
}

// Where the items of a sort lie in a descriptor; nothing where it has none of that sort.
pub fn list_in(d: &[u8], what: Repeated) -> Option<Span>
    ensures { result ≡ list_in what d.now }
{
    match what {
        Repeated::Profiles => profiles_in(d),
        Repeated::Labels => labels_in(d),
        Repeated::Names => names_in(d),
        Repeated::Bases => bases_in(d),
        Repeated::Identifiers => identifiers_in(d),
    }
}

// The kind of what repeats.
pub fn kind_of(what: Repeated) -> Kind
    ensures { result ≡ kind_of what }
{
    match what {
        Repeated::Profiles => Kind::Profile,
        Repeated::Labels => Kind::Label,
        Repeated::Names => Kind::Name,
        Repeated::Bases => Kind::Base,
        Repeated::Identifiers => Kind::Identifier,
    }
}

// What is read of an item that begins at byte `a` of its section.
pub fn item_of(x: &[u8], a: u16, what: Repeated) -> Item
    ensures { result ≡ item_of what x.now a }
{
    match what {
        Repeated::Profiles => Item::Profile(profile_of(x)),
        Repeated::Labels => Item::Label(byte_at(x, 0)),
        Repeated::Names => Item::Name(name_of(x, a)),
        Repeated::Bases => Item::Base(base_of(x, a)),
        Repeated::Identifiers => Item::Identifier(identifier_of(x)),
    }
}

fn is_well_made(d: &[u8]) -> bool
    ensures { result ≡ well_made d.now }
{
    let at = contents_start(d);
    is_good(byte_at(d, 0), &d[at..])
}

// Where the contents begin: after the tag and the length, as far as they are there.
fn contents_start(d: &[u8]) -> usize
    ensures { (result ≤ length d.now) × (drop result d.now ≡ contents_of d.now) }
{
    if d.len() < 2 {
        return d.len();
    }
    2
}

// Whether the descriptor `d` meets a test.
fn meets(test: Test, d: &[u8]) -> bool
    ensures { result ≡ test_of test d.now }
{
    match test {
        Test::Malformed => !is_well_made(d),
        Test::Tagged(t) => byte_at(d, 0) == t,
        Test::Labelled(l) => {
            if byte_at(d, 0) != 0x02 {
                return false;
            }
            byte_at(d, 4) == l
        }
    }
}

// Whether the item of n bytes at byte i meets a test.
pub fn meets_at(test: Test, s: &[u8], i: usize, n: usize) -> bool
    requires { i + n ≤ length s.now }
    ensures { result ≡ test_of test (take n (drop i s.now)) }
{
    let e = i + n;
    meets(test, &s[i..e])
}
