// A drift list as text: a line for each record.
ghost use Rattle.std.specs.Prelude.{◌≡◌, ◌++◌, length};
ghost use Rattle.std.proofs.lemmas.List.Edits.{sets};
ghost use Rattle.text.specs.Text.{reached, codes, decimal};
ghost use Rattle.drift_list.specs.Values.{fix_of};
ghost use Rattle.drift_list.specs.Reading.{count_of, fix_at, read_refusal};
ghost use Rattle.drift_report.specs.Lines.{state_name, signed_decimal, padded, angle, side_of, position, week_time, fix_line, fix_lines, list_text};

use drift_list::{Fix, State};

// The text of a list, or of its refusal.
pub fn put_list(out: &mut [u8], list: &[u8]) -> usize
    ensures { (out.new ≡ sets out.old 0 (list_text list.now))
        × (result ≡ reached 0 (length (list_text list.now)) (length out.old)) }
{
    match drift_list::read(list) {
        Err(n) => {
            let mut end = text::put(out, 0, b"list,");
            end = text::put_decimal(out, end, n as u64);
            text::put(out, end, b"\n")
        }
        Ok(heading) => {
            let mut end = text::put(out, 0, b"issue,");
            end = text::put_decimal(out, end, heading.issue as u64);
            end = text::put(out, end, b"\n");
            end = text::put(
                out,
                end,
                b"buoy,state,longitude,latitude,minute,position,time\n",
            );
            put_fixes(out, end, list, heading.count as usize)
        }
    }
}

// The lines of the `count` records of an accepted list. A walk: each record is judged once more by
// itself, not the whole list for each.
fn put_fixes(out: &mut [u8], at: usize, list: &[u8], count: usize) -> usize
    requires { (read_refusal list.now ≡ 0) × (count ≡ count_of list.now) }
    ensures { (out.new ≡ sets out.old at (fix_lines count 0 (λ k. fix_of (fix_at list.now k))))
        × (result ≡ reached at (length (fix_lines count 0 (λ k. fix_of (fix_at list.now k)))) (length out.old)) }
{
    let mut end = at;
    for k in 0..count {
        // no record of an accepted list is refused
        let Ok(fix) = drift_list::walk_at(list, k) else {
            return end;
        };
        end = put_fix(out, end, fix);
    }
    end
}

fn put_fix(out: &mut [u8], at: usize, f: Fix) -> usize
    ensures { (out.new ≡ sets out.old at (fix_line f)) × (result ≡ reached at (length (fix_line f)) (length out.old)) }
{
    let mut end = put_named(out, at, f);
    end = put_coordinates(out, end, f);
    end = text::put_decimal(out, end, f.minute as u64);
    end = text::put(out, end, b",");
    put_meant(out, end, f)
}

// The buoy and its state, a comma after each.
fn put_named(out: &mut [u8], at: usize, f: Fix) -> usize
    ensures { (out.new ≡ sets out.old at (decimal f.buoy ++ codes "," ++ state_name f.state ++ codes ","))
        × (result ≡ reached at (length (decimal f.buoy ++ codes "," ++ state_name f.state ++ codes ",")) (length out.old)) }
{
    let mut end = text::put_decimal(out, at, f.buoy as u64);
    end = text::put(out, end, b",");
    end = text::put_word(
        out,
        end,
        b"none fix last",
        drift_list::state_number(f.state) as usize,
    );
    text::put(out, end, b",")
}

// Longitude and latitude, likewise.
fn put_coordinates(out: &mut [u8], at: usize, f: Fix) -> usize
    ensures { (out.new ≡ sets out.old at (signed_decimal f.longitude ++ codes "," ++ signed_decimal f.latitude ++ codes ","))
        × (result ≡ reached at (length (signed_decimal f.longitude ++ codes "," ++ signed_decimal f.latitude ++ codes ",")) (length out.old)) }
{
    let mut end = put_signed(out, at, f.longitude);
    end = text::put(out, end, b",");
    end = put_signed(out, end, f.latitude);
    text::put(out, end, b",")
}

// What the numbers mean: the position and the time, and the line's end.
fn put_meant(out: &mut [u8], at: usize, f: Fix) -> usize
    ensures { (out.new ≡ sets out.old at (position f.state f.longitude f.latitude ++ codes "," ++ week_time f.minute ++ codes "\n"))
        × (result ≡ reached at (length (position f.state f.longitude f.latitude ++ codes "," ++ week_time f.minute ++ codes "\n")) (length out.old)) }
{
    let mut end = put_position(out, at, f.state, f.longitude, f.latitude);
    end = text::put(out, end, b",");
    end = put_time(out, end, f.minute);
    text::put(out, end, b"\n")
}

// A minus sign below 0, and the digits.
fn put_signed(out: &mut [u8], at: usize, z: i32) -> usize
    ensures { (out.new ≡ sets out.old at (signed_decimal z)) × (result ≡ reached at (length (signed_decimal z)) (length out.old)) }
{
    if z < 0 {
        let end = text::put(out, at, b"-");
        return text::put_decimal(out, end, z.unsigned_abs() as u64);
    }
    text::put_decimal(out, at, z.unsigned_abs() as u64)
}

// Nothing where the state is "none".
fn put_position(out: &mut [u8], at: usize, s: State, longitude: i32, latitude: i32) -> usize
    ensures { (out.new ≡ sets out.old at (position s longitude latitude))
        × (result ≡ reached at (length (position s longitude latitude)) (length out.old)) }
{
    if drift_list::state_number(s) == 0 {
        return at;
    }
    let mut end = put_angle(out, at, 2, latitude.unsigned_abs());
    end = put_side(out, end, b" N", b" S", latitude);
    end = text::put(out, end, b" ");
    end = put_angle(out, end, 3, longitude.unsigned_abs());
    put_side(out, end, b" E", b" W", longitude)
}

// The first text from 0 up, the second below.
fn put_side(out: &mut [u8], at: usize, from: &[u8], below: &[u8], z: i32) -> usize
    ensures { (out.new ≡ sets out.old at (side_of from.now below.now z))
        × (result ≡ reached at (length (side_of from.now below.now z)) (length out.old)) }
{
    if z < 0 {
        return text::put(out, at, below);
    }
    text::put(out, at, from)
}

// Degrees in `width` digits, and minutes with four decimals.
fn put_angle(out: &mut [u8], at: usize, width: usize, a: u32) -> usize
    ensures { (out.new ≡ sets out.old at (angle width a)) × (result ≡ reached at (length (angle width a)) (length out.old)) }
{
    let mut end = put_padded(out, at, width, a / 600_000);
    end = text::put(out, end, b" ");
    end = put_padded(out, end, 2, a % 600_000 / 10_000);
    end = text::put(out, end, b".");
    put_padded(out, end, 4, a % 10_000)
}

fn put_time(out: &mut [u8], at: usize, minute: u16) -> usize
    ensures { (out.new ≡ sets out.old at (week_time minute)) × (result ≡ reached at (length (week_time minute)) (length out.old)) }
{
    let m = minute as u32;
    let mut end = text::put_decimal(out, at, (m / 1_440) as u64);
    end = text::put(out, end, b" ");
    end = put_padded(out, end, 2, m % 1_440 / 60);
    end = text::put(out, end, b":");
    put_padded(out, end, 2, m % 60)
}

// The `width` lowest digits of a number, zeros in front included.
fn put_padded(out: &mut [u8], at: usize, width: usize, n: u32) -> usize
    ensures { (out.new ≡ sets out.old at (padded width n)) × (result ≡ reached at (length (padded width n)) (length out.old)) }
{
    if width == 0 {
        return at;
    }
    let end = put_padded(out, at, width - 1, n / 10);
    text::put_decimal(out, end, (n % 10) as u64)
}
