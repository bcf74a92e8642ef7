// What the writer is given: an issue, a count and numbers; and its refusals.
ghost use Rattle.std.specs.Prelude.{◌≡◌, ◌*◌, ◌<◌, length};
ghost use Rattle.std.specs.Int.Signed.{mag};
ghost use Rattle.wire.specs.Outcomes.{passed};
ghost use Rattle.drift_list.specs.Values.{refusal_at, first_fault};
ghost use Rattle.drift_list.specs.Writing.{cell, fix_in, fix_given, outside, wide_at, wide_refusal, write_refusal, draft};

use crate::Fields;
use crate::judge::judge_fields;

// Judges what is to be written.
pub fn judge_draft(issue: u32, count: u32, numbers: &[i32], room: usize) -> Result<(), u8>
    ensures { result ≡ passed (write_refusal (draft issue count numbers.now) room) }
{
    let c = count as usize;
    if 65_536 <= issue || 65_536 <= count || numbers.len() != 5 * c {
        return Err(36);
    }
    judge_widths(numbers, count)?;
    judge_records(numbers, count)?;
    let size = 4 + 12 * c;
    if room < size {
        return Err(37);
    }
    Ok(())
}

// Whether every number fits its field.
fn judge_widths(numbers: &[i32], count: u32) -> Result<(), u8>
    requires { length numbers.now ≡ 5 * count }
    ensures { result ≡ passed (first_fault count 0 (wide_refusal numbers.now)) }
{
    for k in 0..count as usize {
        if wide(&numbers[5 * k..]) {
            return Err(36);
        }
    }
    Ok(())
}

// Whether every record is good and its buoy above the one before.
fn judge_records(numbers: &[i32], count: u32) -> Result<(), u8>
    requires { length numbers.now ≡ 5 * count }
    ensures { result ≡ passed (first_fault count 0 (refusal_at (fix_given numbers.now) (λ k. 0))) }
{
    let mut last: u32 = 0;
    for k in 0..count as usize {
        let f = fields_in(&numbers[5 * k..]);
        judge_fields(f, last, 0)?;
        last = f.buoy;
    }
    Ok(())
}

// The record that the five numbers say, as far as they fit its fields.
pub fn fields_in(numbers: &[i32]) -> Fields
    ensures { result ≡ fix_in numbers.now 0 }
{
    Fields {
        buoy: magnitude(cell_at(numbers, 0)),
        state: (magnitude(cell_at(numbers, 1)) % 256) as u8,
        longitude: cell_at(numbers, 2),
        latitude: cell_at(numbers, 3),
        minute: (magnitude(cell_at(numbers, 4)) % 65_536) as u16,
    }
}

// Whether one of the five numbers that a slice begins with is too wide for its field.
fn wide(numbers: &[i32]) -> bool
    ensures { result ≡ wide_at numbers.now 0 }
{
    is_outside(cell_at(numbers, 0), 0x10_0000)
        || is_outside(cell_at(numbers, 1), 4)
        || 0x800_0000 <= magnitude(cell_at(numbers, 2))
        || 0x400_0000 <= magnitude(cell_at(numbers, 3))
        || is_outside(cell_at(numbers, 4), 0x4000)
}

// The number at a place, 0 past the end.
fn cell_at(numbers: &[i32], at: usize) -> i32
    ensures { (result ≡ cell numbers.now at) × (mag result < 2147483648) }
{
    numbers.get(at).copied().unwrap_or(0)
}

// n for n, and n for -(n + 1).
fn magnitude(z: i32) -> u32
    ensures { result ≡ mag z }
{
    if z < 0 {
        return (!z) as u32;
    }
    z as u32
}

// Whether a number is negative or not below `top`.
fn is_outside(z: i32, top: u32) -> bool
    ensures { result ≡ outside top z }
{
    z < 0 || top <= z as u32
}
