// Lines of a 0x01 and its names.
use crate::fields::{Holder, Part};
use crate::page::Page;
use ait_descriptors::Name;
use std::fmt;
use std::fmt::Write;

pub fn put_names<P: Print>(page: &mut Page<P>, names: usize) -> fmt::Result {
    writeln!(page, "1,names,{names}")
}

// A name's language is printed as one number of 24 bits.
pub fn put_name<P: Print>(page: &mut Page<P>, holder: Holder, k: usize, n: Name) -> fmt::Result {
    let language = u32::from_be_bytes([0, n.first, n.second, n.third]);
    let text = Part(n.text);
    writeln!(page, "name,{holder},{k},{language},{text}")
}
