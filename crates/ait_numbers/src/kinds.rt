// A line for each kind of descriptor, and of item.
ghost use Rattle.std.specs.Prelude.{◌≡◌};
ghost use Rattle.ait_numbers.specs.Reading.{described_out, raw_out, found_out, asked_by};

use crate::shapes::placed;
use crate::tag00::*;
use crate::tag01::*;
use crate::tag02::*;
use crate::tag05::*;
use crate::tag15::path_out;
use crate::{DescriptorOut, ItemOut};
use ait_descriptors::{Described, Item, Raw, Repeated};

pub fn described_out(d: Described) -> DescriptorOut
    ensures { result ≡ described_out d }
{
    match d {
        Described::Application(x) => application_out(x),
        Described::Names(n) => names_out(n),
        Described::Local(x) => local_out(x),
        Described::Remote(x) => remote_out(x),
        Described::Bases(x) => bases_out(x),
        Described::Selector(x) => selector_out(x),
        Described::Identifiers(n) => identifiers_out(n),
        Described::Path(p) => path_out(p),
        Described::Raw(x) => raw_out(x),
    }
}

fn raw_out(x: Raw) -> DescriptorOut
    ensures { result ≡ raw_out x }
{
    placed(9, x.tag, 0, 0, x.contents)
}

pub fn found_out(x: Item) -> ItemOut
    ensures { result ≡ found_out x }
{
    match x {
        Item::Profile(p) => profile_out(p),
        Item::Label(l) => label_item_out(l),
        Item::Name(n) => name_out(n),
        Item::Base(b) => base_out(b),
        Item::Identifier(i) => identifier_out(i),
    }
}

// What a number asks for, if there are such items. An item's kind is its descriptor's; of the two that a 0x00 has, labels are 10.
pub fn asked_by(kind: u8) -> Option<Repeated>
    ensures { result ≡ asked_by kind }
{
    match kind {
        1 => Some(Repeated::Profiles),
        2 => Some(Repeated::Names),
        5 => Some(Repeated::Bases),
        7 => Some(Repeated::Identifiers),
        10 => Some(Repeated::Labels),
        _ => None,
    }
}
