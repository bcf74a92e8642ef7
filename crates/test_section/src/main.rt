// Reads stretches from standard input, each after its length (16 bits), and writes a line for each:
// the register after its bytes, the numbers that `check` answers by the application's and by the
// carousel's rules, with their places, and the header's fields where one of them accepts it. tests/test_section.py, an
// independent second program, makes the input and says what must come out.
#![tactic(auto)]

use section::{Header, Refusal, Rules};
use std::io;
use streams::Cases;

fn main(rt: HostRuntime) -> io::Result<()> {
    let mut buffer = [0; streams::LARGE];
    let n = streams::read_full(&mut rt.stdin(), &mut buffer);
    print_each(&rt, &buffer[..n])
}

// A line for each stretch, as far as whole ones go.
fn print_each(rt: &impl Print, s: &[u8]) -> io::Result<()> {
    for case in Cases::of(s) {
        print_one(rt, case)?;
    }
    Ok(())
}

fn print_one(rt: &impl Print, s: &[u8]) -> io::Result<()> {
    let crc = section::crc(s);
    print!(rt; "{crc:08x}")?;
    let application = section::check(s, Rules::Application);
    let carousel = section::check(s, Rules::Carousel);
    print_number(rt, application)?;
    print_number(rt, carousel)?;
    print_header(rt, application)?;
    print_header(rt, carousel)?;
    println!(rt)
}

fn print_number(rt: &impl Print, c: Result<Header, Refusal>) -> io::Result<()> {
    match c {
        Err(r) => print_refusal(rt, r),
        Ok(_) => print!(rt; " 0"),
    }
}

// The number and, where it has one, its place: 5@12.
fn print_refusal(rt: &impl Print, r: Refusal) -> io::Result<()> {
    let number = r.number;
    match r.place {
        Some(p) => print!(rt; " {number}@{p}"),
        None => print!(rt; " {number}"),
    }
}

fn print_header(rt: &impl Print, c: Result<Header, Refusal>) -> io::Result<()> {
    if let Ok(h) = c {
        print_fields(rt, h)?;
    }
    Ok(())
}

fn print_fields(rt: &impl Print, h: Header) -> io::Result<()> {
    let table = h.table;
    let extension = h.extension;
    let version = h.version;
    let section = h.section;
    let last = h.last;
    print!(rt; " {table:02x} {extension:04x} {version:02x} {section:02x} {last:02x}")
}
