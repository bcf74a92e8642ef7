// 0x15 as numbers.
ghost use Rattle.std.specs.Prelude.{◌≡◌};
ghost use Rattle.ait_numbers.specs.Tag15.{path_out};

use crate::DescriptorOut;
use crate::shapes::placed;
use ait_descriptors::Span;

pub fn path_out(path: Span) -> DescriptorOut
    ensures { result ≡ path_out path }
{
    placed(8, 0x15, 0, 0, path)
}
