// 0x01 as numbers.
ghost use Rattle.std.specs.Prelude.{◌≡◌};
ghost use Rattle.ait_numbers.specs.Tag01.{names_out, name_out};

use crate::shapes::{BLANK_ITEM, counted};
use crate::{DescriptorOut, ItemOut};
use ait_descriptors::Name;

pub fn names_out(names: usize) -> DescriptorOut
    ensures { result ≡ names_out names }
{
    counted(2, 0x01, 0, 0, names)
}

pub fn name_out(n: Name) -> ItemOut
    ensures { result ≡ name_out n }
{
    let text = n.text;
    ItemOut {
        at: text.start,
        length: text.size,
        kind: 2,
        first: n.first,
        second: n.second,
        third: n.third,
        ..BLANK_ITEM
    }
}
