// The answers about a drift list as structs of numbers.
ghost use Rattle.std.specs.Prelude.{◌≡◌};
ghost use Rattle.nebosvar.specs.Drift.{list_out, fix_out, written_out};

use crate::{FixOut, ListOut, WrittenOut};
use drift_list::{Fix, Heading};

pub fn list_out(a: Result<Heading, u8>) -> ListOut
    ensures { result ≡ list_out a }
{
    match a {
        Err(n) => ListOut {
            issue: 0,
            count: 0,
            refusal: n,
        },
        Ok(heading) => ListOut {
            issue: heading.issue,
            count: heading.count,
            refusal: 0,
        },
    }
}

pub fn fix_out(a: Result<Fix, u8>) -> FixOut
    ensures { result ≡ fix_out a }
{
    match a {
        Err(n) => FixOut {
            buoy: 0,
            longitude: 0,
            latitude: 0,
            minute: 0,
            state: 0,
            refusal: n,
        },
        Ok(fix) => FixOut {
            buoy: fix.buoy,
            longitude: fix.longitude,
            latitude: fix.latitude,
            minute: fix.minute,
            state: drift_list::state_number(fix.state),
            refusal: 0,
        },
    }
}

pub fn written_out(a: Result<usize, u8>) -> WrittenOut
    ensures { result ≡ written_out a }
{
    match a {
        Err(n) => WrittenOut {
            size: 0,
            refusal: n,
        },
        Ok(size) => WrittenOut { size, refusal: 0 },
    }
}
