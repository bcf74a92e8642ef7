// The answers of the shore player as structs of numbers.
ghost use Rattle.std.specs.Prelude.{◌≡◌};
ghost use Rattle.nebosvar.specs.Play.{counted_out};

use crate::CountedOut;

pub fn counted_out(a: Result<usize, u8>) -> CountedOut
    ensures { result ≡ counted_out a }
{
    match a {
        Ok(sections) => CountedOut {
            sections,
            refusal: 0,
        },
        Err(n) => CountedOut {
            sections: 0,
            refusal: n,
        },
    }
}
