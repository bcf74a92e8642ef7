// What is printed of a 0x00, a profile and a label.
use crate::print::print_number;
use ait_descriptors::{ApplicationDescriptor, Profile};
use std::io;

pub fn print_00(rt: &impl Print, x: ApplicationDescriptor) -> io::Result<()> {
    rt.write_all(b" application")?;
    print_number(rt, x.profiles as u64)?;
    print_number(rt, x.bound as u64)?;
    print_number(rt, x.visibility as u64)?;
    print_number(rt, x.priority as u64)?;
    print_number(rt, x.labels as u64)
}

pub fn print_profile(rt: &impl Print, p: Profile) -> io::Result<()> {
    rt.write_all(b"profile")?;
    print_number(rt, p.number as u64)?;
    print_number(rt, p.major as u64)?;
    print_number(rt, p.minor as u64)?;
    print_number(rt, p.micro as u64)
}

pub fn print_label(rt: &impl Print, label: u8) -> io::Result<()> {
    rt.write_all(b"label")?;
    print_number(rt, label as u64)
}
