// The classes of application numbers and control codes.
ghost use Rattle.std.specs.Prelude.{◌≡◌};
ghost use Rattle.ait_read.specs.Records.{class_of, control_of};

use crate::{Class, Control};

// The class of an application number.
pub fn class_of(number: u16) -> Class
    ensures { result ≡ class_of number }
{
    match number {
        0x0000..=0x3FFF => Class::Unsigned,
        0x4000..=0x7FFF => Class::Signed,
        0x8000..=0xFFFD => Class::Other,
        _ => Class::Wildcard,
    }
}

// The class of a control code.
pub fn control_of(code: u8) -> Control
    ensures { result ≡ control_of code }
{
    match code {
        1 => Control::Autostart,
        2 => Control::Present,
        3 => Control::Destroy,
        4 => Control::Kill,
        6 => Control::Remote,
        _ => Control::Reserved,
    }
}
