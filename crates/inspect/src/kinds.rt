// A line for each kind of descriptor, and of item.
use crate::fields::{Holder, Part};
use crate::page::Page;
use crate::tag00::{put_application_descriptor, put_label, put_profile};
use crate::tag01::{put_name, put_names};
use crate::tag02::{put_base, put_bases, put_local, put_remote, put_selector};
use crate::tag05::{put_identifier, put_identifiers};
use crate::tag15::put_path;
use ait_descriptors::{Described, Item, Raw};
use std::fmt;
use std::fmt::Write;

pub fn put_descriptor<P: Print>(page: &mut Page<P>, holder: Holder, d: Described) -> fmt::Result {
    write!(page, "descriptor,{holder},")?;
    match d {
        Described::Application(x) => put_application_descriptor(page, x),
        Described::Names(names) => put_names(page, names),
        Described::Local(x) => put_local(page, x),
        Described::Remote(x) => put_remote(page, x),
        Described::Bases(x) => put_bases(page, x),
        Described::Selector(x) => put_selector(page, x),
        Described::Identifiers(identifiers) => put_identifiers(page, identifiers),
        Described::Path(part) => put_path(page, part),
        Described::Raw(x) => put_raw(page, x),
    }
}

fn put_raw<P: Print>(page: &mut Page<P>, x: Raw) -> fmt::Result {
    let tag = x.tag;
    let part = Part(x.contents);
    writeln!(page, "{tag},raw,{part}")
}

// The item at place k of a descriptor of the section s.
pub fn put_item<P: Print>(
    page: &mut Page<P>,
    s: &[u8],
    holder: Holder,
    k: usize,
    x: Item,
) -> fmt::Result {
    match x {
        Item::Profile(p) => put_profile(page, holder, k, p),
        Item::Label(label) => put_label(page, s, holder, k, label),
        Item::Name(n) => put_name(page, holder, k, n),
        Item::Base(b) => put_base(page, s, holder, k, b),
        Item::Identifier(i) => put_identifier(page, holder, k, i),
    }
}
