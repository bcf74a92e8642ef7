// What is read of an application, from its own bytes.
ghost use Rattle.std.specs.Prelude.{◌≡◌};
ghost use Rattle.wire.specs.Places.{after};
ghost use Rattle.ait_descriptors.specs.declared.Kind.TheVariants.{Descriptor};
ghost use Rattle.ait_descriptors.specs.Kinds.{count_at};
ghost use Rattle.ait_read.specs.Records.{application_of};

use crate::Application;
use crate::classes::{class_of, control_of};
use ait_descriptors::{Kind, count_within};
use wire::{byte_at, sixteen_at, thirty_two_at};

pub fn application_of(x: &[u8]) -> Application
    ensures { result ≡ application_of x.now }
{
    let number = sixteen_at(x, 4);
    let class = class_of(number);
    let code = byte_at(x, 6);
    let control = control_of(code);
    Application {
        organisation: thirty_two_at(x, 0),
        number,
        class,
        code,
        control,
        descriptors: own_count(x),
    }
}

// How many descriptors follow an application's nine bytes.
fn own_count(x: &[u8]) -> usize
    ensures { result ≡ count_at Descriptor (after 9 x.now) x.now }
{
    count_within(x, wire::rest(x, 9), Kind::Descriptor)
}
