// The whole sections of one PID of a transport stream, on standard output: sections PID.
//
// Standard input is packets of 188 bytes, end to end, and is read to its end. There a line on standard
// error says what became of them. A read that fails ends the input; an output that is closed ends the
// program, and then there is no line.
#![tactic(auto)]

mod totals;

ghost use Rattle.std.specs.Prelude.{◌≤◌, ◌<◌, IfSome, length};

use std::env::Env;
use std::io::Read;
use totals::{KINDS, add, tell};
use transport::STATE_LENGTH;

// A PID has 13 bits.
const MOST_PID: u32 = 8191;

// 349 packets. Only whole packets but for the input's very last bytes: a packet is never cut in two.
const STRETCH: usize = 65_612;

// More than a stretch can make whole, so that one call passes all of it.
const ROOM: usize = 131_072;

// No greater number is said than the most: the remainder only spares the proof of that.
fn main(rt: HostRuntime) {
    match asked(&rt) {
        None => usage(&rt.stderr()),
        Some(n) => {
            let pid = (n % (MOST_PID + 1)) as u16;
            take_apart(&mut rt.stdin(), &rt.stdout(), &rt.stderr(), pid)
        }
    }
}

// The PID that the program's one argument says.
fn asked(env: &impl Env) -> Option<u32> {
    if streams::argument_count(env) != 2 {
        return None;
    }
    let mut argument = [0; streams::PATH];
    let n = streams::argument(env, 1, &mut argument)?;
    text::read_decimal(&argument[..n], MOST_PID)
}

fn usage(log: &impl Print) {
    let _ = log.write_all(b"usage: sections PID\n");
}

// A proved loop has to end, and nothing says that the input does: it counts its turns up to a number that no
// run comes to.
fn take_apart<R: Read, P: Print, L: Print>(input: &mut R, output: &P, log: &L, pid: u16) {
    let mut stretch = [0; STRETCH];
    let mut state = [0; STATE_LENGTH];
    let mut out = [0; ROOM];
    let mut counts = [0usize; KINDS];
    for _ in 0..u64::MAX {
        let n = streams::read_full(input, &mut stretch);
        if !pass(
            output,
            pid,
            &stretch[..n],
            &mut state,
            &mut out,
            &mut counts,
        ) {
            return;
        }
        if n < STRETCH {
            tell(log, &counts);
            return;
        }
    }
}

// Passes a whole stretch, and answers whether it could. By `gather`'s contract each turn passes some of it;
// to stop where it does not spares the proof of that.
fn pass(
    output: &impl Print,
    pid: u16,
    stretch: &[u8],
    state: &mut [u8],
    out: &mut [u8],
    counts: &mut [usize],
) -> bool {
    let mut at: usize = 0;
    while at < stretch.len() {
        let Some(n) = pass_some(output, pid, &stretch[at..], state, out, counts) else {
            return false;
        };
        at += n;
    }
    true
}

// As many packets as `out` has room for what becomes whole, which is written. Answers their bytes, if there
// are any and the output is not closed.
fn pass_some(
    output: &impl Print,
    pid: u16,
    stretch: &[u8],
    state: &mut [u8],
    out: &mut [u8],
    counts: &mut [usize],
) -> Option<usize>
    ensures { IfSome result (λ n. (0 < n) × (n ≤ length stretch.now)) }
{
    let gathered = transport::gather(pid, stretch, state, out).ok()?;
    add(counts, gathered.counts);
    let size = gathered.size.min(out.len());
    output.write_all(&out[..size]).ok()?;
    let passed = gathered.passed.min(stretch.len());
    if passed == 0 {
        return None;
    }
    Some(passed)
}
