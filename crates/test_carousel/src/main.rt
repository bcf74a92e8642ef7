// Reads commands from standard input, each a letter and its numbers (most significant byte first),
// leads one carousel record and one image through them, and writes a line for each.
// tests/test_carousel.py, an independent second program, makes the input and says what must come
// out. The record is lent broken too: a poke sets any of its fields.
//
//   s length 24, fill 8               start: the empty record, an image of that length
//   l length 24                       only the image's length changes
//   p field 8, place 16, value 32     poke a field of the record
//   i place 24, value 8               paint a byte of the image
//   t length 16, section              step
//   h number 16                       hand-out
//   m number 16                       missing report
#![tactic(auto)]

ghost use Rattle.std.specs.Prelude.{◌≤◌};

use carousel_messages::{MOST_BYTES, MOST_MODULES};
use carousel_record::{Carousel, MARK_WORDS, Module};
use carousel_step::Answer;
use section::Refusal;
use std::io;

// Room for the largest image, and some bytes more.
const MEMORY: usize = MOST_BYTES + 64;

// What is kept from command to command: the record, and how much of the memory is the image.
#[derive(Clone, Copy)]
struct Kept {
    record: Carousel,
    length: usize,
}

fn main(rt: HostRuntime) -> io::Result<()> {
    let mut buffer = [0; streams::LARGE];
    let n = streams::read_full(&mut rt.stdin(), &mut buffer);
    let mut memory = [0u8; MEMORY];
    follow(&rt, &buffer[..n], &mut memory)
}

// Each command, as far as whole ones go.
fn follow(rt: &impl Print, s: &[u8], memory: &mut [u8]) -> io::Result<()> {
    let mut kept = Kept {
        record: carousel_record::empty(),
        length: 0,
    };
    let mut at: usize = 0;
    while at < s.len() {
        let rest = &s[at..];
        let size = command_size(rest);
        if rest.len() < size {
            return Ok(());
        }
        kept = obey(rt, kept, &rest[0..size], memory)?;
        at += size;
    }
    Ok(())
}

// A command's size: never 0, so that each turn moves on.
fn command_size(s: &[u8]) -> usize
    ensures { 1 ≤ result }
{
    match wire::byte_at(s, 0) {
        b's' => 5,
        b'l' => 4,
        b'p' => 8,
        b'i' => 5,
        b't' => 3 + wire::sixteen_at(s, 1) as usize,
        _ => 3,
    }
}

fn obey(rt: &impl Print, kept: Kept, s: &[u8], memory: &mut [u8]) -> io::Result<Kept> {
    let c = kept.record;
    let n = kept.length;
    match wire::byte_at(s, 0) {
        b's' => start(rt, s, memory),
        b'l' => lengthened(rt, c, s, memory),
        b'i' => {
            paint(rt, s, memory)?;
            Ok(kept)
        }
        b't' => {
            let record = take(rt, c, n, s, memory)?;
            Ok(Kept { record, length: n })
        }
        _ => obey_within(rt, c, n, s, memory),
    }
}

// The commands that leave the memory as it is.
fn obey_within(
    rt: &impl Print,
    c: Carousel,
    n: usize,
    s: &[u8],
    memory: &[u8],
) -> io::Result<Kept> {
    let mut record = c;
    match wire::byte_at(s, 0) {
        b'p' => {
            record = poke(rt, c, s)?;
        }
        b'h' => {
            hand_out(rt, c, n, s, memory)?;
        }
        _ => {
            report(rt, c, s)?;
        }
    }
    Ok(Kept { record, length: n })
}

// 24 bits of a command, not past the memory's end.
fn place_in(s: &[u8], memory: &[u8]) -> usize {
    let place = (wire::thirty_two_at(s, 0) % 0x0100_0000) as usize;
    if memory.len() < place {
        return memory.len();
    }
    place
}

fn start(rt: &impl Print, s: &[u8], memory: &mut [u8]) -> io::Result<Kept> {
    let n = place_in(s, memory);
    fill(memory, n, wire::byte_at(s, 4));
    rt.write_all(b"start")?;
    print_number(rt, n as u64)?;
    rt.write_all(b"\n")?;
    let record = carousel_record::empty();
    Ok(Kept { record, length: n })
}

fn fill(memory: &mut [u8], n: usize, value: u8) {
    let end = n.min(memory.len());
    memory[..end].fill(value);
}

fn lengthened(rt: &impl Print, record: Carousel, s: &[u8], memory: &[u8]) -> io::Result<Kept> {
    let n = place_in(s, memory);
    rt.write_all(b"length")?;
    print_number(rt, n as u64)?;
    rt.write_all(b"\n")?;
    Ok(Kept { record, length: n })
}

fn paint(rt: &impl Print, s: &[u8], memory: &mut [u8]) -> io::Result<()> {
    rt.write_all(b"paint\n")?;
    let place = place_in(s, memory);
    if memory.len() <= place {
        return Ok(());
    }
    memory[place] = wire::byte_at(s, 4);
    Ok(())
}

// The field's number is the second byte, the place in its array the next two.
fn poke(rt: &impl Print, c: Carousel, s: &[u8]) -> io::Result<Carousel> {
    rt.write_all(b"poke\n")?;
    let mut next = c;
    let place = wire::sixteen_at(s, 2) as usize;
    match wire::byte_at(s, 1) {
        0 => {
            next.download = wire::thirty_two_at(s, 4);
        }
        1 => {
            next.block_size = wire::sixteen_at(s, 6);
        }
        2 => {
            next.count = wire::sixteen_at(s, 6);
        }
        7 => {
            if place < MARK_WORDS {
                next.marks[place] = wire::thirty_two_at(s, 4);
            }
        }
        _ => {
            if place < MOST_MODULES {
                let m = c.modules[place];
                next.modules[place] = poked_module(m, s);
            }
        }
    }
    Ok(next)
}

fn poked_module(m: Module, s: &[u8]) -> Module {
    let mut next = m;
    match wire::byte_at(s, 1) {
        3 => {
            next.number = wire::sixteen_at(s, 6);
        }
        4 => {
            next.size = wire::thirty_two_at(s, 4);
        }
        5 => {
            next.version = wire::byte_at(s, 7);
        }
        _ => {
            next.start = wire::thirty_two_at(s, 4);
        }
    }
    next
}

fn take(
    rt: &impl Print,
    c: Carousel,
    n: usize,
    s: &[u8],
    memory: &mut [u8],
) -> io::Result<Carousel> {
    if memory.len() < n {
        return Ok(c);
    }
    if s.len() < 3 {
        return Ok(c);
    }
    let stepped = carousel_step::step(c, &s[3..], &mut memory[0..n]);
    let answer = stepped.answer;
    let record = stepped.state;
    rt.write_all(b"step")?;
    print_answer(rt, answer)?;
    print_digest(rt, record_digest(record))?;
    print_digest(rt, digest(&memory[0..n]))?;
    rt.write_all(b"\n")?;
    Ok(record)
}

// The number and the kind.
fn print_answer(rt: &impl Print, a: Result<Answer, Refusal>) -> io::Result<()> {
    match a {
        Ok(Answer::New) => {
            rt.write_all(b" 0 new")?;
        }
        Ok(Answer::Same) => {
            rt.write_all(b" 0 same")?;
        }
        Ok(Answer::Stored) => {
            rt.write_all(b" 0 stored")?;
        }
        Ok(Answer::Repeated) => {
            rt.write_all(b" 0 repeated")?;
        }
        Err(r) => {
            print_refusal(rt, r)?;
            rt.write_all(b" none")?;
        }
    }
    Ok(())
}

// A refusal's number and, where it has one, its place: 5@12.
fn print_refusal(rt: &impl Print, r: Refusal) -> io::Result<()> {
    print_number(rt, r.number as u64)?;
    if let Some(p) = r.place {
        print!(rt; "@{p}")?;
    }
    Ok(())
}

fn hand_out(rt: &impl Print, c: Carousel, n: usize, s: &[u8], memory: &[u8]) -> io::Result<()> {
    if memory.len() < n {
        return Ok(());
    }
    let image = &memory[0..n];
    let number = wire::sixteen_at(s, 1);
    rt.write_all(b"handout")?;
    print_number(rt, handout_number(c, image, number) as u64)?;
    let part = carousel_handout::handout(c, image, number);
    print_number(rt, part.len() as u64)?;
    print_digest(rt, digest(part))?;
    rt.write_all(b"\n")
}

// The number of a hand-out's refusal, 0 for none.
fn handout_number(c: Carousel, image: &[u8], number: u16) -> u8 {
    match carousel_handout::handout_place(c, image, number) {
        Ok(_) => 0,
        Err(r) => r.number,
    }
}

fn report(rt: &impl Print, c: Carousel, s: &[u8]) -> io::Result<()> {
    rt.write_all(b"missing")?;
    match carousel_handout::missing(c, wire::sixteen_at(s, 1)) {
        Err(r) => {
            print_number(rt, r.number as u64)?;
        }
        Ok(None) => {
            rt.write_all(b" 0 none")?;
        }
        Ok(Some(l)) => {
            print_number(rt, 0)?;
            print_number(rt, l.count as u64)?;
            print_number(rt, l.lowest as u64)?;
        }
    }
    rt.write_all(b"\n")
}

fn print_number(rt: &impl Print, n: u64) -> io::Result<()> {
    print!(rt; " {n}")
}

fn print_digest(rt: &impl Print, d: u32) -> io::Result<()> {
    print!(rt; " {d:08x}")
}

// A digest takes in one number after the other, modulo a prime: a step a byte, where the CRC's
// register would need eight.
fn mixed(d: u32, n: u16) -> u32 {
    ((d as u64 * 16777619 + n as u64 + 1) % 4294967291) as u32
}

// The two halves of a word: two words that differ by the prime differ here.
fn mixed_word(d: u32, w: u32) -> u32 {
    mixed(mixed(d, (w >> 16) as u16), (w % 65536) as u16)
}

fn digest(s: &[u8]) -> u32 {
    let mut d: u32 = 0;
    for b in s {
        d = mixed(d, *b as u16);
    }
    d
}

// All of the record: its numbers, its entries and its words of marks.
fn record_digest(c: Carousel) -> u32 {
    let a = mixed_word(0, c.download);
    let b = mixed_word(a, c.block_size as u32);
    let d = mixed_word(b, c.count as u32);
    marks_digest(modules_digest(d, c), c)
}

fn modules_digest(from: u32, c: Carousel) -> u32 {
    let mut d = from;
    for i in 0..MOST_MODULES {
        d = module_digest(d, c.modules[i]);
    }
    d
}

fn module_digest(from: u32, m: Module) -> u32 {
    let a = mixed_word(from, m.number as u32);
    let b = mixed_word(a, m.size);
    let d = mixed_word(b, m.version as u32);
    mixed_word(d, m.start)
}

fn marks_digest(from: u32, c: Carousel) -> u32 {
    let mut d = from;
    for i in 0..MARK_WORDS {
        d = mixed_word(d, c.marks[i]);
    }
    d
}
