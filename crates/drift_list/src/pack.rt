// A record's bytes, put at a place.
ghost use Rattle.std.specs.Prelude.{◌≡◌, ℕ, ◌+◌, ◌^◌, ◌<◌, ◌≤◌, length};
ghost use Rattle.std.proofs.lemmas.List.Edits.{sets};
ghost use Rattle.std.specs.Int.Signed.{mag};
ghost use Rattle.wire.specs.Fields.{spelled};
ghost use Rattle.wire.specs.Signed.{twos as wire·twos};
ghost use Rattle.drift_list.specs.Reading.{spell_fix, FitsFix};

use crate::Fields;

// Puts a record's twelve bytes at a place.
pub fn put_fix(out: &mut [u8], at: usize, f: Fields)
    requires { (at + 12 ≤ length out.old) × FitsFix f }
    ensures { out.new ≡ sets out.old at (spell_fix f) }
{
    let x = twos(f.longitude, 0x0800_0000) as u64;
    let y = twos(f.latitude, 0x0400_0000) as u64;
    let high = f.buoy as u64 * 0x1000_0000_0000
        + f.state as u64 * 0x400_0000_0000
        + x * 0x4000
        + y / 0x2000;
    let low = y % 0x2000 * 0x8_0000 + f.minute as u64 * 32;
    put_four(out, at, (high / 0x1_0000_0000) as u32);
    put_four(out, at + 4, (high % 0x1_0000_0000) as u32);
    put_four(out, at + 8, low as u32);
}

// Puts a number's four bytes at a place.
pub fn put_four(out: &mut [u8], at: usize, x: u32)
    requires { at + 4 ≤ length out.old }
    ensures { out.new ≡ sets out.old at (spelled 4 x) }
{
    out[at..at + 4].copy_from_slice(&x.to_be_bytes());
}

// The bits of a number in two's complement, where the sign's is `half`.
fn twos(z: i32, half: u32) -> u32
    requires { (mag z < half) × (half ≤ 134217728) }
    ensures { (h : ℕ) → half ≡ 2 ^ h → result ≡ wire·twos h z }
{
    if z < 0 {
        return half * 2 - 1 - (!z) as u32;
    }
    z as u32
}
