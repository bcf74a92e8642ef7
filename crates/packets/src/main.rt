// Transport packets of one PID out of sections, on standard output: packets PID.
//
// Standard input is sections, end to end, and is read until it ends, or has fewer bytes than a section
// says, or byte 0xFF stands where a section should begin. Each section begins a packet. A read that fails
// ends the input; an output that is closed ends the program.
#![tactic(auto)]

ghost use Rattle.std.specs.Prelude.{◌*◌, ◌≤◌, length};

use std::env::Env;
use std::io::Read;
use transport_write::{MOST_PACKETS, PACKET_LENGTH};

// A PID has 13 bits.
const MOST_PID: u32 = 8191;

// The largest section's bytes.
const LARGEST_SECTION: usize = 4098;

// What came of a stretch: the bytes whose packets were written, and the next packet's counter.
#[derive(Clone, Copy)]
struct Packaged {
    passed: usize,
    counter: u8,
}

// No greater number is said than the most: the remainder only spares the proof of that.
fn main(rt: HostRuntime) {
    match asked(&rt) {
        None => usage(&rt.stderr()),
        Some(n) => pack(&mut rt.stdin(), &rt, (n % (MOST_PID + 1)) as u16),
    }
}

// The PID that the program's one argument says.
fn asked(env: &impl Env) -> Option<u32> {
    if streams::argument_count(env) != 2 {
        return None;
    }
    let mut argument = [0; streams::PATH];
    let n = streams::argument(env, 1, &mut argument)?;
    text::read_decimal(&argument[..n], MOST_PID)
}

fn usage(log: &impl Print) {
    let _ = log.write_all(b"usage: packets PID\n");
}

// Fills a buffer, writes the whole sections at its front, and keeps the rest for the next turn. A proved
// loop has to end, and nothing says that the input does: it counts its turns up to a number that no run
// comes to.
fn pack<R: Read, P: Print>(input: &mut R, output: &P, pid: u16) {
    let mut space = [0; streams::LARGE];
    let buffer: &mut [u8] = &mut space;
    let mut out = [0; streams::LARGE];
    let mut held: usize = 0;
    let mut counter: u8 = 0;
    for _ in 0..u64::MAX {
        let end = held + read_some(input, &mut buffer[held..]);
        let Some(packaged) = write_sections(output, pid, counter, &buffer[..end], &mut out) else {
            return;
        };
        if end < buffer.len() {
            return;
        }
        if wire::byte_at(buffer, packaged.passed) == section::STUFFING {
            return;
        }
        counter = packaged.counter;
        held = keep_rest(buffer, packaged.passed);
    }
}

// Reads until the part is full, or the input ends.
fn read_some<R: Read>(input: &mut R, part: &mut [u8]) -> usize
    ensures { result ≤ length part.old }
{
    streams::read_full(input, part)
}

// Writes the packets of the whole sections that a stretch begins with, as many at once as `out` has room for;
// none where the output is closed.
fn write_sections(
    output: &impl Print,
    pid: u16,
    counter: u8,
    s: &[u8],
    out: &mut [u8],
) -> Option<Packaged> {
    let mut at: usize = 0;
    let mut c = counter;
    let mut size: usize = 0;
    while let Some(n) = section::whole_at(&s[at..]) {
        let end = at + n;
        let written = put_packets(pid, c, &s[at..end], &mut out[size..]);
        at = end;
        c = counter_after(c, written);
        size += PACKET_LENGTH * written;
        if out.len() - size < MOST_PACKETS * PACKET_LENGTH {
            output.write_all(&out[..size]).ok()?;
            size = 0;
        }
    }
    output.write_all(&out[..size]).ok()?;
    Some(Packaged {
        passed: at,
        counter: c,
    })
}

// Counters go round: 0 follows 15.
fn counter_after(counter: u8, packets: usize) -> u8 {
    ((counter as usize + packets % 16) % 16) as u8
}

// Puts a section's packets at the start of `out`, and answers how many there are.
fn put_packets(pid: u16, counter: u8, s: &[u8], out: &mut [u8]) -> usize
    ensures { 188 * result ≤ length out.old }
{
    match transport_write::write_packets(pid, counter, s, out) {
        Ok(n) => n.min(out.len() / PACKET_LENGTH),
        Err(_) => 0,
    }
}

// Moves what is left from a place on to the front, and answers how much that is: less than the largest section,
// or a whole one would have been written.
fn keep_rest(buffer: &mut [u8], place: usize) -> usize
    ensures { result ≤ length buffer.old }
{
    let from = place.min(buffer.len());
    let kept = (buffer.len() - from).min(LARGEST_SECTION);
    let end = from + kept;
    let mut rest = [0u8; LARGEST_SECTION];
    wire::copy_at(&mut rest, 0, &buffer[from..end]);
    wire::copy_at(buffer, 0, &rest[..kept]);
    kept
}
