// The limits of refusals 10 and 11, over announced modules.
ghost use Rattle.std.specs.Prelude.{◌≡◌, ◌+◌, ◌≤◌, length, drop, take};
ghost use Rattle.carousel_messages.specs.Limits.{most_modules, some_bad, total, beyond10, twice11};
ghost use Rattle.carousel_messages.specs.Heard.{sizes_of, numbers_of, place_in, found};

use crate::Listed;

pub const LARGEST_BLOCK: u16 = 4066;

pub const MOST_MODULES: usize = 32;

pub const MOST_BLOCKS: usize = 1024;

pub const MOST_BYTES: usize = 262_144;

// 10: a limit that is not kept.
pub fn is_beyond(block_size: u16, modules: &[Listed]) -> bool
    ensures { result ≡ beyond10 block_size (sizes_of modules.now) }
{
    if block_size == 0 {
        return true;
    }
    if LARGEST_BLOCK < block_size {
        return true;
    }
    if modules.is_empty() {
        return true;
    }
    if MOST_MODULES < modules.len() {
        return true;
    }
    if some_bad(block_size, modules) {
        return true;
    }
    MOST_BYTES < sum(modules)
}

// 11: a module number twice.
pub fn has_twice(modules: &[Listed]) -> bool
    ensures { result ≡ twice11 (numbers_of modules.now) }
{
    for i in 0..modules.len() {
        if place_from(modules, i + 1, modules[i].number).is_some() {
            return true;
        }
    }
    false
}

// The sizes together of the first n of an array, of all of it where n is past its end. An array, since it bounds the sum.
pub fn total(ms: [Listed; MOST_MODULES], n: usize) -> usize
    ensures { result ≡ total (sizes_of (take n ms)) }
{
    sum(&ms[..n.min(MOST_MODULES)])
}

// The first place from `from` on that has this number.
pub fn place_from(modules: &[Listed], from: usize, number: u16) -> Option<usize>
    ensures { result ≡ found (from + place_in number (drop from modules.now)) (length modules.now) }
{
    for i in from..modules.len() {
        if modules[i].number == number {
            return Some(i);
        }
    }
    None
}

// The sizes together.
fn sum(modules: &[Listed]) -> usize
    requires { length modules.now ≤ most_modules }
    ensures { result ≡ total (sizes_of modules.now) }
{
    let mut sum: usize = 0;
    for m in modules {
        sum += m.size as usize;
    }
    sum
}

// Whether a size is 0 or over MOST_BLOCKS blocks.
fn some_bad(block_size: u16, modules: &[Listed]) -> bool
    ensures { result ≡ some_bad block_size (sizes_of modules.now) }
{
    let most = MOST_BLOCKS * block_size as usize;
    for m in modules {
        if m.size == 0 {
            return true;
        }
        if most < m.size as usize {
            return true;
        }
    }
    false
}
