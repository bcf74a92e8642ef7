// The program's arguments: three numbers, then a number, a version and a file's name for each module.
ghost use Rattle.std.specs.Prelude.{◌+◌, ◌*◌, ◌^◌, ◌≤◌, ◌<◌, IfSome};

use std::env::Env;

// The greatest numbers of 32, 16 and 8 bits.
pub const MOST_THIRTY_TWO: u32 = 4_294_967_295;

pub const MOST_SIXTEEN: u32 = 65_535;

pub const MOST_EIGHT: u32 = 255;

// Whether there are as many as there may be, and each is what it should be. The program's own name is counted.
pub fn are_good(env: &impl Env, count: usize) -> bool {
    if count < 7 {
        return false;
    }
    if count % 3 != 1 {
        return false;
    }
    if !is_number(env, 1, MOST_THIRTY_TWO) {
        return false;
    }
    if !is_number(env, 2, MOST_SIXTEEN) {
        return false;
    }
    if !is_number(env, 3, MOST_THIRTY_TWO) {
        return false;
    }
    are_modules(env, module_count(count))
}

fn are_modules(env: &impl Env, n: usize) -> bool
    requires { 3 * n + 4 < 2 ^ 64 }
{
    for i in 0..n {
        if !is_number(env, 4 + 3 * i, MOST_SIXTEEN) {
            return false;
        }
        if !is_number(env, 5 + 3 * i, MOST_EIGHT) {
            return false;
        }
        if !is_name(env, 6 + 3 * i) {
            return false;
        }
    }
    true
}

// How many modules there are: argument 4 + 3 * i is the number of module i.
pub fn module_count(count: usize) -> usize
    ensures { 3 * result + 4 < 2 ^ 64 }
{
    if count < 4 {
        return 0;
    }
    (count - 4) / 3
}

// The number that argument k says; 0 where it says none.
pub fn value(env: &impl Env, k: usize, most: u32) -> u32
    ensures { result ≤ most }
{
    said(env, k, most).unwrap_or(0)
}

fn is_number(env: &impl Env, k: usize, most: u32) -> bool {
    said(env, k, most).is_some()
}

fn said(env: &impl Env, k: usize, most: u32) -> Option<u32>
    ensures { IfSome result (λ n. n ≤ most) }
{
    let mut argument = [0; streams::PATH];
    let n = streams::argument(env, k, &mut argument)?;
    text::read_decimal(&argument[..n], most)
}

// Whether argument k is short enough to be read whole.
fn is_name(env: &impl Env, k: usize) -> bool {
    let mut name = [0; streams::PATH];
    streams::argument(env, k, &mut name).is_some()
}
