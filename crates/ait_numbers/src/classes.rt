// Classes by their numbers.
ghost use Rattle.std.specs.Prelude.{◌≡◌};
ghost use Rattle.ait_numbers.specs.Classes.{class_number, control_number};

use ait_read::{Class, Control};

pub fn class_number(c: Class) -> u8
    ensures { result ≡ class_number c }
{
    match c {
        Class::Unsigned => 1,
        Class::Signed => 2,
        Class::Other => 3,
        Class::Wildcard => 4,
    }
}

// A class bears its code; reserved is 255, which is a reserved code itself.
pub fn control_number(c: Control) -> u8
    ensures { result ≡ control_number c }
{
    match c {
        Control::Autostart => 1,
        Control::Present => 2,
        Control::Destroy => 3,
        Control::Kill => 4,
        Control::Remote => 6,
        Control::Reserved => 255,
    }
}
