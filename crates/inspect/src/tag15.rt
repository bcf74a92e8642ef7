// The line of a 0x15.
use crate::fields::Part;
use crate::page::Page;
use ait_descriptors::Span;
use std::fmt;
use std::fmt::Write;

pub fn put_path<P: Print>(page: &mut Page<P>, path: Span) -> fmt::Result {
    let part = Part(path);
    writeln!(page, "21,path,{part}")
}
