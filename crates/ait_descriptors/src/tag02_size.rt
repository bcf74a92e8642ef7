// The size of a base with its counted extensions: an item of a 0x02 of protocol 3. Apart from
// tag02.rt, which counts items, since the size of every kind is asked for in counting.
ghost use Rattle.std.specs.Prelude.{◌≡◌};
ghost use Rattle.wire.specs.Items.{sized};
ghost use Rattle.ait_descriptors.specs.Tag02.{base};

use wire::eight_at;

pub fn base_size(s: &[u8]) -> Option<usize>
    ensures { result ≡ sized (base s.now) }
{
    let n = eight_at(s, 0);
    let start = 2 + n;
    if s.len() < start {
        return None;
    }
    wire::measured_end(s, start, eight_at(s, 1 + n), 1, 0)
}
