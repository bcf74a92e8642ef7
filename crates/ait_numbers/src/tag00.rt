// 0x00 as numbers.
ghost use Rattle.std.specs.Prelude.{◌≡◌};
ghost use Rattle.ait_numbers.specs.Tag00.{application_descriptor_out, profile_out, label_item_out};

use crate::shapes::{BLANK_DESCRIPTOR, BLANK_ITEM};
use crate::{DescriptorOut, ItemOut};
use ait_descriptors::{ApplicationDescriptor, Profile};

pub fn application_out(x: ApplicationDescriptor) -> DescriptorOut
    ensures { result ≡ application_descriptor_out x }
{
    DescriptorOut {
        count: x.profiles,
        labels: x.labels,
        kind: 1,
        bound: x.bound,
        visibility: x.visibility,
        priority: x.priority,
        ..BLANK_DESCRIPTOR
    }
}

pub fn profile_out(p: Profile) -> ItemOut
    ensures { result ≡ profile_out p }
{
    ItemOut {
        number: p.number,
        kind: 1,
        major: p.major,
        minor: p.minor,
        micro: p.micro,
        ..BLANK_ITEM
    }
}

pub fn label_item_out(label: u8) -> ItemOut
    ensures { result ≡ label_item_out label }
{
    ItemOut {
        kind: 10,
        label,
        ..BLANK_ITEM
    }
}
