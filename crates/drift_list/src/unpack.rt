// What stands in the bits of a record.
ghost use Rattle.std.specs.Prelude.{◌≡◌, ℕ, ◌*◌, ◌^◌, ◌<◌, ◌≤◌};
ghost use Rattle.wire.specs.Fields.{field_at};
ghost use Rattle.wire.specs.Signed.{signed as wire·signed};
ghost use Rattle.drift_list.specs.Reading.{fields_from, spare_from};

use crate::Fields;

// The record that a slice begins with.
pub fn fields_of(s: &[u8]) -> Fields
    ensures { result ≡ fields_from s.now 0 }
{
    let high = sixty_four_at(s, 0);
    let low = sixty_four_at(s, 4);
    let buoy = ((high >> 44) % 0x10_0000) as u32;
    let state = ((high >> 42) % 4) as u8;
    let longitude = signed(((high >> 14) % 0x1000_0000) as u32, 0x0800_0000);
    let latitude = signed(((low >> 19) % 0x0800_0000) as u32, 0x0400_0000);
    let minute = ((low >> 5) % 0x4000) as u16;
    Fields {
        buoy,
        state,
        longitude,
        latitude,
        minute,
    }
}

// Its buoy alone.
pub fn buoy_of(s: &[u8]) -> u32
    ensures { result ≡ (fields_from s.now 0).buoy }
{
    wire::thirty_two_at(s, 0) >> 12
}

// Its spare bits.
pub fn spare_of(s: &[u8]) -> u8
    ensures { result ≡ spare_from s.now 0 }
{
    wire::byte_at(s, 11) % 32
}

// The 64 bits of the eight bytes from a place on.
fn sixty_four_at(s: &[u8], at: usize) -> u64
    ensures { (result ≡ field_at 8 s.now at) × (result < 18446744073709551616) }
{
    if s.len() <= at {
        return 0;
    }
    let from = &s[at..];
    ((wire::thirty_two_at(from, 0) as u64) << 32) | wire::thirty_two_at(from, 4) as u64
}

// What bits say in two's complement, where the sign's is `half`.
fn signed(v: u32, half: u32) -> i32
    requires { (v < half * 2) × (half ≤ 134217728) }
    ensures { (h : ℕ) → half ≡ 2 ^ h → result ≡ wire·signed h v }
{
    if v < half {
        return v as i32;
    }
    !((half * 2 - 1 - v) as i32)
}
