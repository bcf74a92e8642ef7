// Lines of a 0x02, by its protocol, its bases and their extensions.
use crate::fields::{Holder, Part};
use crate::page::Page;
use ait_descriptors::{Base, Bases, Local, Remote, Selector};
use std::fmt;
use std::fmt::Write;

// A carousel's three numbers are there only where it is remote.
pub fn put_local<P: Print>(page: &mut Page<P>, x: Local) -> fmt::Result {
    let label = x.label;
    let component = x.component;
    writeln!(page, "2,carousel,{label},0,,,,{component}")
}

pub fn put_remote<P: Print>(page: &mut Page<P>, x: Remote) -> fmt::Result {
    let label = x.label;
    let network = x.network;
    let transport = x.transport;
    let service = x.service;
    let component = x.component;
    writeln!(
        page,
        "2,carousel,{label},1,{network},{transport},{service},{component}"
    )
}

pub fn put_bases<P: Print>(page: &mut Page<P>, x: Bases) -> fmt::Result {
    let label = x.label;
    let bases = x.bases;
    writeln!(page, "2,bases,{label},{bases}")
}

pub fn put_selector<P: Print>(page: &mut Page<P>, x: Selector) -> fmt::Result {
    let protocol = x.protocol;
    let label = x.label;
    let part = Part(x.selector);
    writeln!(page, "2,selector,{protocol},{label},{part}")
}

pub fn put_base<P: Print>(
    page: &mut Page<P>,
    s: &[u8],
    holder: Holder,
    k: usize,
    b: Base,
) -> fmt::Result {
    let text = Part(b.text);
    let extensions = b.extensions;
    writeln!(page, "base,{holder},{k},{text},{extensions}")?;
    put_extensions(page, s, holder, k, extensions)
}

// The extensions of the base at place k.
fn put_extensions<P: Print>(
    page: &mut Page<P>,
    s: &[u8],
    holder: Holder,
    k: usize,
    count: usize,
) -> fmt::Result {
    for m in 0..count {
        if let Ok(x) = ait_read::extension_at(s, holder.scope, holder.place, k, m) {
            let part = Part(x);
            writeln!(page, "extension,{holder},{k},{m},{part}")?;
        }
    }
    Ok(())
}
