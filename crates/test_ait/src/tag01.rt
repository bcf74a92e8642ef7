// What is printed of a 0x01 and a name.
use crate::print::*;
use ait_descriptors::Name;
use std::io;

pub fn print_names(rt: &impl Print, names: usize) -> io::Result<()> {
    rt.write_all(b" names")?;
    print_number(rt, names as u64)
}

pub fn print_name(rt: &impl Print, s: &[u8], n: Name) -> io::Result<()> {
    rt.write_all(b"name")?;
    print_number(rt, n.first as u64)?;
    print_number(rt, n.second as u64)?;
    print_number(rt, n.third as u64)?;
    print_span(rt, s, n.text)
}
