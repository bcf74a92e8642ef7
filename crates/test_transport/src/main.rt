// Reads cases from standard input, each after its length (16 bits), and writes what the calls over
// transport packets answer, a line for each. A case (most significant byte first):
//
//   kind 8, counter 8, pid 16, length of the buffer 16, length of the state 16, then its bytes
//
// Kind 0 feeds the bytes as one packet, 1 gathers them as a stretch, 2 writes the packets of them as a
// section; 3 lays them over the state from the byte on that `pid` says, 4 begins the state anew. The state
// is carried from case to case. A line ends with a digest of the buffer after the call, and one of the
// whole state. tests/test_transport.py, an independent second program, makes the input and says what must
// come out.
#![tactic(auto)]

use std::io;
use streams::Cases;
use transport::{Answer, Counts, Gathered};

// The bytes of a case before its own.
const HEAD: usize = 8;

// The largest buffer; and more than a state needs.
const ROOM: usize = 9000;

const STATE: usize = 4300;

fn main(rt: HostRuntime) -> io::Result<()> {
    let mut buffer = [0; streams::LARGE];
    let n = streams::read_full(&mut rt.stdin(), &mut buffer);
    let mut state = [0; STATE];
    follow(&rt, &buffer[..n], &mut state)
}

// A line for each case, as far as whole ones go.
fn follow(rt: &impl Print, s: &[u8], state: &mut [u8]) -> io::Result<()> {
    for case in Cases::of(s) {
        obey(rt, case, state)?;
    }
    Ok(())
}

// Lends a buffer and a state of the lengths that the case says.
fn obey(rt: &impl Print, s: &[u8], state: &mut [u8]) -> io::Result<()> {
    // a byte that was not written shows
    let mut out = [0xEE; ROOM];
    let room = (wire::sixteen_at(s, 4) as usize).min(ROOM);
    let lent = (wire::sixteen_at(s, 6) as usize).min(state.len());
    print_call(rt, s, &mut state[..lent], &mut out[..room])?;
    print_number(rt, digest(state) as u64)?;
    rt.write_all(b"\n")
}

// The line, up to the digest of the buffer.
fn print_call(rt: &impl Print, s: &[u8], state: &mut [u8], out: &mut [u8]) -> io::Result<()> {
    call(rt, s, state, out)?;
    print_number(rt, digest(out) as u64)
}

fn call(rt: &impl Print, s: &[u8], state: &mut [u8], out: &mut [u8]) -> io::Result<()> {
    let pid = wire::sixteen_at(s, 2);
    let bytes = &s[HEAD.min(s.len())..];
    match wire::byte_at(s, 0) {
        0 => feed(rt, pid, bytes, state, out)?,
        1 => gather(rt, pid, bytes, state, out)?,
        2 => write(rt, pid, wire::byte_at(s, 1), bytes, out)?,
        3 => lay(rt, pid as usize, bytes, state)?,
        _ => renew(rt, state)?,
    }
    Ok(())
}

fn feed(rt: &impl Print, pid: u16, p: &[u8], state: &mut [u8], out: &mut [u8]) -> io::Result<()> {
    let handed = transport::feed(pid, p, state, out);
    rt.write_all(b"feed")?;
    match handed.answer {
        Ok(Answer::Taken) => print_word(rt, b"taken")?,
        Ok(Answer::Broken) => print_word(rt, b"broken")?,
        Ok(Answer::Repeated) => print_word(rt, b"repeated")?,
        Err(n) => print_number(rt, n as u64)?,
    }
    print_number(rt, handed.size as u64)
}

fn gather(
    rt: &impl Print,
    pid: u16,
    packets: &[u8],
    state: &mut [u8],
    out: &mut [u8],
) -> io::Result<()> {
    let answer = transport::gather(pid, packets, state, out);
    rt.write_all(b"gather")?;
    match answer {
        Ok(gathered) => print_gathered(rt, 0, gathered),
        Err(n) => print_gathered(rt, n, Gathered::default()),
    }
}

fn print_gathered(rt: &impl Print, refusal: u8, gathered: Gathered) -> io::Result<()> {
    print_number(rt, refusal as u64)?;
    print_number(rt, gathered.passed as u64)?;
    print_number(rt, gathered.size as u64)?;
    print_counts(rt, gathered.counts)
}

fn print_counts(rt: &impl Print, counts: Counts) -> io::Result<()> {
    print_number(rt, counts.taken as u64)?;
    print_number(rt, counts.repeated as u64)?;
    print_number(rt, counts.broken as u64)?;
    print_number(rt, counts.refused40 as u64)?;
    print_number(rt, counts.refused41 as u64)?;
    print_number(rt, counts.refused42 as u64)?;
    print_number(rt, counts.refused43 as u64)
}

fn write(rt: &impl Print, pid: u16, counter: u8, s: &[u8], out: &mut [u8]) -> io::Result<()> {
    let answer = transport_write::write_packets(pid, counter, s, out);
    rt.write_all(b"write")?;
    match answer {
        Ok(n) => print_answer(rt, 0, n),
        Err(n) => print_answer(rt, n, 0),
    }
}

fn lay(rt: &impl Print, at: usize, bytes: &[u8], state: &mut [u8]) -> io::Result<()> {
    wire::copy_at(state, at, bytes);
    rt.write_all(b"lay")
}

// What is looked at of a state becomes zeros.
fn renew(rt: &impl Print, state: &mut [u8]) -> io::Result<()> {
    let none = [0u8; 190];
    lay(rt, 0, &none, state)
}

fn print_answer(rt: &impl Print, refusal: u8, n: usize) -> io::Result<()> {
    print_number(rt, refusal as u64)?;
    print_number(rt, n as u64)
}

fn print_word(rt: &impl Print, w: &[u8]) -> io::Result<()> {
    rt.write_all(b" ")?;
    rt.write_all(w)
}

fn print_number(rt: &impl Print, n: u64) -> io::Result<()> {
    print!(rt; " {n}")
}

// A digest takes in one byte after the other, modulo a prime.
fn digest(s: &[u8]) -> u32 {
    let mut d: u32 = 0;
    for b in s {
        d = mixed(d, *b);
    }
    d
}

fn mixed(d: u32, b: u8) -> u32 {
    ((d as u64 * 16777619 + b as u64 + 1) % 4294967291) as u32
}
