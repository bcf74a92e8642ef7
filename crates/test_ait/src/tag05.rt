// What is printed of a 0x05 and an identifier.
use crate::print::print_number;
use ait_descriptors::Identifier;
use std::io;

pub fn print_identifiers(rt: &impl Print, identifiers: usize) -> io::Result<()> {
    rt.write_all(b" identifiers")?;
    print_number(rt, identifiers as u64)
}

pub fn print_identifier(rt: &impl Print, i: Identifier) -> io::Result<()> {
    rt.write_all(b"identifier")?;
    print_number(rt, i.organisation as u64)?;
    print_number(rt, i.number as u64)?;
    print_number(rt, i.priority as u64)
}
