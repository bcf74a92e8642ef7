// 0x15, the simple application location descriptor.
ghost use Rattle.std.specs.Prelude.{◌≡◌};
ghost use Rattle.ait_descriptors.specs.Tag15.{described15};

use crate::Described;
use crate::parts::rest_of;

pub fn described_15(d: &[u8], a: u16) -> Described
    ensures { result ≡ described15 d.now a }
{
    Described::Path(rest_of(d, 2, a))
}
