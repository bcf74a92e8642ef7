// A line for each kind of descriptor, and of item.
use crate::print::*;
use crate::tag00::*;
use crate::tag01::*;
use crate::tag02::*;
use crate::tag05::*;
use crate::tag15::print_path;
use ait_descriptors::{Described, Item, Raw};
use std::io;

pub fn print_described(rt: &impl Print, s: &[u8], d: Described) -> io::Result<()> {
    rt.write_all(b"descriptor")?;
    match d {
        Described::Application(x) => print_00(rt, x)?,
        Described::Names(n) => print_names(rt, n)?,
        Described::Local(x) => print_local(rt, x)?,
        Described::Remote(x) => print_remote(rt, x)?,
        Described::Bases(x) => print_bases(rt, x)?,
        Described::Selector(x) => print_selector(rt, s, x)?,
        Described::Identifiers(n) => print_identifiers(rt, n)?,
        Described::Path(p) => print_path(rt, s, p)?,
        Described::Raw(x) => print_raw(rt, s, x)?,
    }
    rt.write_all(b"\n")
}

fn print_raw(rt: &impl Print, s: &[u8], x: Raw) -> io::Result<()> {
    rt.write_all(b" raw")?;
    print_number(rt, x.tag as u64)?;
    print_span(rt, s, x.contents)
}

pub fn print_item(rt: &impl Print, s: &[u8], x: Item) -> io::Result<()> {
    match x {
        Item::Profile(p) => print_profile(rt, p)?,
        Item::Label(l) => print_label(rt, l)?,
        Item::Name(n) => print_name(rt, s, n)?,
        Item::Base(b) => print_base(rt, s, b)?,
        Item::Identifier(i) => print_identifier(rt, i)?,
    }
    rt.write_all(b"\n")
}
