// What is printed of a 0x15.
use crate::print::print_span;
use ait_descriptors::Span;
use std::io;

pub fn print_path(rt: &impl Print, s: &[u8], path: Span) -> io::Result<()> {
    rt.write_all(b" path")?;
    print_span(rt, s, path)
}
