// Reads cases of 128 bytes from standard input and writes what the drift list's calls answer. Byte 0
// says whether a list is to be read (0) or written, byte 1 how many bytes of the case are meant. Of a
// list: what `read` answers, and `record_at` and `walk_at` at places 0 to 4. Of numbers: issue and
// count (32 bits each), the room (8 bits), then the numbers (32 bits each); what `write` answers, and
// the bytes that it leaves. tests/test_drift.py, an independent second program, makes the input and
// says what must come out.
#![tactic(auto)]

ghost use Rattle.std.specs.Prelude.{◌≤◌, length};

use drift_list::{Fix, State};
use std::io;

const CASE: usize = 128;

fn main(rt: HostRuntime) -> io::Result<()> {
    let mut buffer = [0; streams::LARGE];
    let n = streams::read_full(&mut rt.stdin(), &mut buffer);
    print_each(&rt, &buffer[..n])
}

// A case after another, as far as whole ones go.
fn print_each(rt: &impl Print, s: &[u8]) -> io::Result<()> {
    for k in 0..s.len() / CASE {
        print_case(rt, &s[CASE * k..])?;
    }
    Ok(())
}

fn print_case(rt: &impl Print, s: &[u8]) -> io::Result<()> {
    let n = wire::eight_at(s, 1);
    if s.len() < 2 + n {
        return Ok(());
    }
    let told = &s[2..2 + n];
    if wire::byte_at(s, 0) == 0 {
        print_list(rt, told)?;
    } else {
        print_written(rt, told)?;
    }
    Ok(())
}

fn print_list(rt: &impl Print, list: &[u8]) -> io::Result<()> {
    rt.write_all(b"read")?;
    match drift_list::read(list) {
        Err(n) => print_number(rt, n as u64)?,
        Ok(heading) => {
            print_number(rt, 0)?;
            print_number(rt, heading.issue as u64)?;
            print_number(rt, heading.count as u64)?;
        }
    }
    rt.write_all(b"\n")?;
    for k in 0..5 {
        print_place(rt, list, k)?;
    }
    Ok(())
}

fn print_place(rt: &impl Print, list: &[u8], k: usize) -> io::Result<()> {
    print_answer(rt, b"record", k, drift_list::record_at(list, k))?;
    print_answer(rt, b"walk", k, drift_list::walk_at(list, k))
}

fn print_answer(rt: &impl Print, call: &[u8], k: usize, a: Result<Fix, u8>) -> io::Result<()> {
    rt.write_all(call)?;
    print_number(rt, k as u64)?;
    match a {
        Err(n) => print_number(rt, n as u64)?,
        Ok(fix) => {
            print_number(rt, 0)?;
            print_number(rt, fix.buoy as u64)?;
            print_state(rt, fix.state)?;
            print_signed(rt, fix.longitude)?;
            print_signed(rt, fix.latitude)?;
            print_number(rt, fix.minute as u64)?;
        }
    }
    rt.write_all(b"\n")
}

fn print_state(rt: &impl Print, s: State) -> io::Result<()> {
    match s {
        State::None => rt.write_all(b" none")?,
        State::Fix => rt.write_all(b" fix")?,
        State::LastKnown => rt.write_all(b" last")?,
    };
    Ok(())
}

fn print_number(rt: &impl Print, n: u64) -> io::Result<()> {
    print!(rt; " {n}")
}

fn print_signed(rt: &impl Print, z: i32) -> io::Result<()> {
    print!(rt; " {z}")
}

fn print_written(rt: &impl Print, s: &[u8]) -> io::Result<()> {
    let issue = wire::thirty_two_at(s, 0);
    let count = wire::thirty_two_at(s, 4);
    let room = wire::eight_at(s, 8);
    let mut numbers = [0; 32];
    let n = fill(&mut numbers, s);
    // a byte that was not written shows
    let mut out = [0xAA; 255];
    print_write(rt, issue, count, &numbers[..n], &mut out[..room])
}

// The numbers behind the first nine bytes, as many as there are; answers how many.
fn fill(numbers: &mut [i32], s: &[u8]) -> usize
    ensures { result ≤ length numbers.new }
{
    let n = numbers.len().min(s.len().saturating_sub(9) / 4);
    for k in 0..n {
        numbers[k] = wire::thirty_two_at(s, 9 + 4 * k).cast_signed();
    }
    n
}

fn print_write(
    rt: &impl Print,
    issue: u32,
    count: u32,
    numbers: &[i32],
    out: &mut [u8],
) -> io::Result<()> {
    let answer = drift_list::write(issue, count, numbers, out);
    rt.write_all(b"write")?;
    match answer {
        Err(n) => print_number(rt, n as u64)?,
        Ok(size) => {
            print_number(rt, 0)?;
            print_number(rt, size as u64)?;
        }
    }
    rt.write_all(b" ")?;
    print_bytes(rt, out)?;
    rt.write_all(b"\n")
}

fn print_bytes(rt: &impl Print, s: &[u8]) -> io::Result<()> {
    for byte in s {
        print!(rt; "{byte:02x}")?;
    }
    Ok(())
}
