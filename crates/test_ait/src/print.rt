// Words of a line.
use ait_descriptors::Span;
use section::Refusal;
use std::io;

pub fn print_number(rt: &impl Print, n: u64) -> io::Result<()> {
    print!(rt; " {n}")
}

pub fn print_end(rt: &impl Print, r: Refusal) -> io::Result<()> {
    rt.write_all(b"end")?;
    print_refusal(rt, r)
}

// The line's end: the number and, where it has one, its place: 5@12.
pub fn print_refusal(rt: &impl Print, r: Refusal) -> io::Result<()> {
    print_number(rt, r.number as u64)?;
    if let Some(p) = r.place {
        print!(rt; "@{p}")?;
    }
    rt.write_all(b"\n")
}

// The bytes of a span, in hexadecimal.
pub fn print_span(rt: &impl Print, s: &[u8], x: Span) -> io::Result<()> {
    rt.write_all(b" ")?;
    print_bytes(rt, ait_read::part(s, x))
}

fn print_bytes(rt: &impl Print, b: &[u8]) -> io::Result<()> {
    rt.write_all(b"<")?;
    for byte in b {
        print!(rt; "{byte:02x}")?;
    }
    rt.write_all(b">")
}
