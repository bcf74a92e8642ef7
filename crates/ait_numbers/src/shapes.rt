// Descriptors and items as numbers, whatever their kind. What a kind does not have is 0.
ghost use Rattle.std.specs.Prelude.{◌≡◌};
ghost use Rattle.ait_numbers.specs.Shapes.{no_descriptor, counted_by, placed_by, no_item};

use crate::{DescriptorOut, ItemOut, NOWHERE, place_told};
use ait_descriptors::Span;
use section::Refusal;

pub const BLANK_DESCRIPTOR: DescriptorOut = DescriptorOut {
    count: 0,
    labels: 0,
    at: 0,
    length: 0,
    protocol: 0,
    network: 0,
    transport: 0,
    service: 0,
    kind: 0,
    tag: 0,
    label: 0,
    component: 0,
    bound: 0,
    visibility: 0,
    priority: 0,
    refused_at: NOWHERE,
    refusal: 0,
};

pub const BLANK_ITEM: ItemOut = ItemOut {
    at: 0,
    length: 0,
    extensions: 0,
    organisation: 0,
    number: 0,
    class_number: 0,
    kind: 0,
    label: 0,
    major: 0,
    minor: 0,
    micro: 0,
    priority: 0,
    first: 0,
    second: 0,
    third: 0,
    refused_at: NOWHERE,
    refusal: 0,
};

pub fn no_descriptor(refusal: Refusal) -> DescriptorOut
    ensures { result ≡ no_descriptor refusal }
{
    DescriptorOut {
        refused_at: place_told(refusal),
        refusal: refusal.number,
        ..BLANK_DESCRIPTOR
    }
}

// A descriptor of so many items.
pub fn counted(kind: u8, tag: u8, protocol: u16, label: u8, count: usize) -> DescriptorOut
    ensures { result ≡ counted_by kind tag protocol label count }
{
    DescriptorOut {
        count,
        protocol,
        kind,
        tag,
        label,
        ..BLANK_DESCRIPTOR
    }
}

// A descriptor that names a part of the section.
pub fn placed(kind: u8, tag: u8, protocol: u16, label: u8, part: Span) -> DescriptorOut
    ensures { result ≡ placed_by kind tag protocol label part }
{
    DescriptorOut {
        at: part.start,
        length: part.size,
        protocol,
        kind,
        tag,
        label,
        ..BLANK_DESCRIPTOR
    }
}

pub fn no_item(refusal: Refusal) -> ItemOut
    ensures { result ≡ no_item refusal }
{
    ItemOut {
        refused_at: place_told(refusal),
        refusal: refusal.number,
        ..BLANK_ITEM
    }
}
