// Standard input and the program's arguments, as bytes in fixed buffers.
#![tactic(auto)]

mod cases;

ghost use Rattle.std.specs.Prelude.{◌≤◌, length, take, IfSome};
ghost use Rattle.std.specs.Io.KnownBytes.{Consumes};

pub use cases::Cases;
use std::env::{Env, FillError};
use std::io::Read;

// The room of a buffer that holds any path.
pub const PATH: usize = 4096;

// The room of a large buffer.
pub const LARGE: usize = 65_536;

// Reads until `buf` is full, the input ends or a read fails, and answers how many bytes it put at the
// start of `buf`. A call that a signal interrupts counts as one that failed.
pub fn read_full<R: Read>(from: &mut R, buf: &mut [u8]) -> usize
    ensures in_bounds { result ≤ length buf.new }
    ensures bytes { Consumes (R.remaining from.old) (R.remaining from.new) (take result buf.new) }
{
    let mut done: usize = 0;
    while done < buf.len() {
        match from.read(&mut buf[done..]) {
            Ok(0) => return done,
            Ok(n) => done += n,
            Err(_) => return done,
        }
    }
    done
}

// How many arguments there are. The program's own name is counted.
pub fn argument_count<E: Env>(env: &E) -> usize {
    for k in 0..usize::MAX {
        if let Err(FillError::NotPresent) = env.arg(k, &mut []) {
            return k;
        }
    }
    usize::MAX
}

// Puts argument k at the start of `buf` and answers its length; nothing where there is no such argument,
// or it is longer than `buf`.
pub fn argument<E: Env>(env: &E, k: usize, buf: &mut [u8]) -> Option<usize>
    ensures { IfSome result (λ n. n ≤ length buf.new) }
{
    match env.arg(k, buf) {
        Ok(n) => Some(n),
        Err(_) => None,
    }
}
