// What is printed of a 0x02, a base and its extensions.
use crate::print::*;
use ait_descriptors::{Base, Bases, Local, Remote, Selector};
use ait_read::Scope;
use std::io;

pub fn print_local(rt: &impl Print, x: Local) -> io::Result<()> {
    rt.write_all(b" local")?;
    print_number(rt, x.label as u64)?;
    print_number(rt, x.component as u64)
}

pub fn print_remote(rt: &impl Print, x: Remote) -> io::Result<()> {
    rt.write_all(b" remote")?;
    print_number(rt, x.label as u64)?;
    print_number(rt, x.network as u64)?;
    print_number(rt, x.transport as u64)?;
    print_number(rt, x.service as u64)?;
    print_number(rt, x.component as u64)
}

pub fn print_bases(rt: &impl Print, x: Bases) -> io::Result<()> {
    rt.write_all(b" bases")?;
    print_number(rt, x.label as u64)?;
    print_number(rt, x.bases as u64)
}

pub fn print_selector(rt: &impl Print, s: &[u8], x: Selector) -> io::Result<()> {
    rt.write_all(b" selector")?;
    print_number(rt, x.protocol as u64)?;
    print_number(rt, x.label as u64)?;
    print_span(rt, s, x.selector)
}

pub fn print_base(rt: &impl Print, s: &[u8], b: Base) -> io::Result<()> {
    rt.write_all(b"base")?;
    print_span(rt, s, b.text)?;
    print_number(rt, b.extensions as u64)
}

pub fn print_extensions(
    rt: &impl Print,
    s: &[u8],
    scope: Scope,
    j: usize,
    k: usize,
) -> io::Result<()> {
    for m in 0..1024 {
        match ait_read::extension_at(s, scope, j, k, m) {
            Err(r) => return print_end(rt, r),
            Ok(x) => {
                rt.write_all(b"extension")?;
                print_span(rt, s, x)?;
                rt.write_all(b"\n")?;
            }
        }
    }
    Ok(())
}
