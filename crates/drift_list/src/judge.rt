// Whether a record, or a list of them, is accepted; else the number of its refusal.
ghost use Rattle.std.specs.Prelude.{◌≡◌, ◌&&◌, ◌+◌, ◌*◌, ◌≤◌, length};
ghost use Rattle.wire.specs.Outcomes.{passed};
ghost use Rattle.wire.specs.Tests.{first_met};
ghost use Rattle.wire.specs.Signed.{between, is_zero};
ghost use Rattle.drift_list.specs.Values.{state_fault, fix_tests, buoy_before};
ghost use Rattle.drift_list.specs.Reading.{fields_from, spare_from, fix_at, read_refusal};
ghost use Rattle.drift_list.specs.Answers.{walk_refusal};

use crate::Fields;
use crate::unpack::{buoy_of, fields_of, spare_of};

// Judges a whole list.
pub fn judge_list(s: &[u8]) -> Result<(), u8>
    ensures { result ≡ passed (read_refusal s.now) }
{
    let count = wire::sixteen_at(s, 2) as usize;
    let size = 4 + 12 * count;
    if s.len() != size {
        return Err(30);
    }
    let mut last: u32 = 0;
    for k in 0..count {
        let part = &s[4 + 12 * k..];
        judge_record(part, last)?;
        last = buoy_of(part);
    }
    Ok(())
}

// Judges record k in a walk.
pub fn judge_walk(s: &[u8], k: usize) -> Result<(), u8>
    ensures { result ≡ passed (walk_refusal s.now k) }
{
    let count = wire::sixteen_at(s, 2) as usize;
    if s.len() != 4 + 12 * count {
        return Err(30);
    }
    if count <= k {
        return Err(19);
    }
    judge_record(&s[4 + 12 * k..], buoy_before(s, k))
}

// The buoy before record k, 0 before the first.
fn buoy_before(s: &[u8], k: usize) -> u32
    requires { 4 + 12 * k ≤ length s.now }
    ensures { result ≡ buoy_before (fix_at s.now) k }
{
    if k == 0 {
        return 0;
    }
    let at = 4 + 12 * (k - 1);
    buoy_of(&s[at..])
}

// Judges the record that a slice begins with.
fn judge_record(s: &[u8], before: u32) -> Result<(), u8>
    ensures { result ≡ passed (first_met (fix_tests before (fields_from s.now 0) (spare_from s.now 0))) }
{
    judge_fields(fields_of(s), before, spare_of(s))
}

// Judges the values of a record.
pub fn judge_fields(f: Fields, before: u32, spare: u8) -> Result<(), u8>
    ensures { result ≡ passed (first_met (fix_tests before f spare)) }
{
    let x = f.longitude;
    let y = f.latitude;
    if !within(x, -107_999_999, 108_000_000) {
        return Err(31);
    }
    if !within(y, -54_000_000, 54_000_000) {
        return Err(31);
    }
    if 10_080 <= f.minute {
        return Err(32);
    }
    if f.buoy <= before {
        return Err(33);
    }
    if 0 < spare {
        return Err(34);
    }
    if state_fault(f.state, at_zero(x, y)) {
        return Err(35);
    }
    Ok(())
}

fn within(z: i32, lo: i32, hi: i32) -> bool
    ensures { result ≡ between lo hi z }
{
    (lo..=hi).contains(&z)
}

fn at_zero(x: i32, y: i32) -> bool
    ensures { result ≡ (is_zero x && is_zero y) }
{
    x == 0 && y == 0
}

// Whether a state does not go with coordinates that are both zero, or not. An expression, since a branch on the state is guessed wrong where
// states are mixed.
fn state_fault(state: u8, origin: bool) -> bool
    ensures { result ≡ state_fault state origin }
{
    3 <= state || (state == 0) != origin
}
