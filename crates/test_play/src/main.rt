// Reads commands from standard input and writes what the shore player's two calls answer. A command
// (most significant byte first):
//
//   download 32, block size 16, count 16
//   how many modules follow 8, each of them: number 16, size 32, version 8
//   length of the image 32, identifier 32, place 32, length of the buffer 32
//
// Entries that do not follow are filled with rubbish: they may be read only up to the count. For each
// command two lines, `count REFUSAL SECTIONS` and `write REFUSAL SIZE DIGEST`, the digest being that of
// the whole buffer after the call. A section ends with its own CRC, so that its CRC tells nothing of it:
// the digest is another. tests/test_play.py, an independent second program, makes the input and says
// what must come out.
#![tactic(auto)]

ghost use Rattle.std.specs.Prelude.{◌≡◌, ◌<◌, length};

use carousel_messages::{Listed, MOST_BYTES, MOST_MODULES};
use carousel_play::Playlist;
use std::io;

// The bytes of a command before its modules, of a module, and after them.
const HEAD: usize = 9;

const ENTRY: usize = 7;

const TAIL: usize = 16;

// Where the bytes of an image come from, the largest and some more; and the largest buffer.
const IMAGE: usize = MOST_BYTES + 56;

const ROOM: usize = 5000;

const RUBBISH: Listed = Listed {
    number: 1,
    size: 5,
    version: 6,
};

fn main(rt: HostRuntime) -> io::Result<()> {
    let mut buffer = [0; streams::LARGE];
    let n = streams::read_full(&mut rt.stdin(), &mut buffer);
    let mut image = blank();
    paint(&mut image);
    follow(&rt, &buffer[..n], &image)
}

fn blank() -> [u8; IMAGE]
    ensures { 262200 ≡ length result }
{
    [0; IMAGE]
}

fn paint(image: &mut [u8]) {
    for k in 0..image.len() {
        image[k] = painted(k);
    }
}

// The image's byte at a place.
fn painted(k: usize) -> u8 {
    let low = k % 256;
    let high = k / 256 % 256;
    let top = k / 65536 % 256;
    ((7 * low + high + 5 * top) % 256) as u8
}

// Each command, as far as whole ones go.
fn follow(rt: &impl Print, s: &[u8], image: &[u8]) -> io::Result<()> {
    let mut at: usize = 0;
    while at < s.len() {
        let rest = &s[at..];
        let size = tail_at(rest) + TAIL;
        if rest.len() < size {
            return Ok(());
        }
        obey(rt, &rest[0..size], image)?;
        at += size;
    }
    Ok(())
}

// Where a command's modules end.
fn tail_at(s: &[u8]) -> usize
    ensures { result < 2048 }
{
    HEAD + ENTRY * wire::eight_at(s, 8)
}

fn obey(rt: &impl Print, s: &[u8], image: &[u8]) -> io::Result<()> {
    let p = playlist(s);
    let tail = &s[tail_at(s).min(s.len())..];
    let length = (wire::thirty_two_at(tail, 0) as usize).min(image.len());
    print_count(rt, p)?;
    write_within(rt, p, &image[0..length], tail)
}

fn playlist(s: &[u8]) -> Playlist {
    let ms = modules(s);
    Playlist {
        download: wire::thirty_two_at(s, 0),
        block_size: wire::sixteen_at(s, 4),
        count: wire::sixteen_at(s, 6),
        modules: ms,
    }
}

fn modules(s: &[u8]) -> [Listed; MOST_MODULES] {
    let mut ms = [RUBBISH; MOST_MODULES];
    for i in 0..MOST_MODULES {
        ms[i] = entry(s, i);
    }
    ms
}

fn entry(s: &[u8], i: usize) -> Listed {
    if wire::eight_at(s, 8) <= i {
        return RUBBISH;
    }
    let at = HEAD + ENTRY * i;
    Listed {
        number: wire::sixteen_at(s, at),
        size: wire::thirty_two_at(s, at + 2),
        version: wire::byte_at(s, at + 6),
    }
}

fn print_count(rt: &impl Print, p: Playlist) -> io::Result<()> {
    rt.write_all(b"count")?;
    print_answer(rt, carousel_play::section_count(p))?;
    rt.write_all(b"\n")
}

// Lends a buffer of the length that the command says.
fn write_within(rt: &impl Print, p: Playlist, image: &[u8], tail: &[u8]) -> io::Result<()> {
    let identifier = wire::thirty_two_at(tail, 4);
    let place = wire::thirty_two_at(tail, 8) as usize;
    let room = (wire::thirty_two_at(tail, 12) as usize).min(ROOM);
    let mut out = marked();
    print_write(rt, p, image, identifier, place, &mut out[..room])
}

// Bytes to write over: a byte that was not written shows.
fn marked() -> [u8; ROOM]
    ensures { 5000 ≡ length result }
{
    [0xEE; ROOM]
}

fn print_write(
    rt: &impl Print,
    p: Playlist,
    image: &[u8],
    identifier: u32,
    place: usize,
    out: &mut [u8],
) -> io::Result<()> {
    let answer = carousel_play::write_section(p, image, identifier, place, out);
    rt.write_all(b"write")?;
    print_answer(rt, answer)?;
    print_number(rt, digest(out) as u64)?;
    rt.write_all(b"\n")
}

// The refusal's number, 0 for none, and what is answered, 0 on a refusal.
fn print_answer(rt: &impl Print, answer: Result<usize, u8>) -> io::Result<()> {
    match answer {
        Ok(n) => {
            print_number(rt, 0)?;
            print_number(rt, n as u64)
        }
        Err(refusal) => {
            print_number(rt, refusal as u64)?;
            print_number(rt, 0)
        }
    }
}

fn print_number(rt: &impl Print, n: u64) -> io::Result<()> {
    print!(rt; " {n}")
}

// A digest takes in one byte after the other, modulo a prime.
fn digest(s: &[u8]) -> u32 {
    let mut d: u32 = 0;
    for b in s {
        d = mixed(d, *b);
    }
    d
}

fn mixed(d: u32, b: u8) -> u32 {
    ((d as u64 * 16777619 + b as u64 + 1) % 4294967291) as u32
}
