// 0x05 as numbers.
ghost use Rattle.std.specs.Prelude.{◌≡◌};
ghost use Rattle.ait_numbers.specs.Tag05.{identifiers_out, identifier_out};

use crate::classes::class_number;
use crate::shapes::{BLANK_ITEM, counted};
use crate::{DescriptorOut, ItemOut};
use ait_descriptors::Identifier;

pub fn identifiers_out(identifiers: usize) -> DescriptorOut
    ensures { result ≡ identifiers_out identifiers }
{
    counted(7, 0x05, 0, 0, identifiers)
}

pub fn identifier_out(i: Identifier) -> ItemOut
    ensures { result ≡ identifier_out i }
{
    ItemOut {
        organisation: i.organisation,
        number: i.number,
        class_number: class_number(ait_read::class_of(i.number)),
        kind: 7,
        priority: i.priority,
        ..BLANK_ITEM
    }
}
