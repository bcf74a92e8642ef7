// The items below a descriptor's line.
use crate::fields::Holder;
use crate::kinds::put_item;
use crate::page::Page;
use ait_descriptors::{Described, Repeated};
use std::fmt;

// Those of its sort and, below a 0x00 alone, its labels after them.
pub fn put_below<P: Print>(
    page: &mut Page<P>,
    s: &[u8],
    holder: Holder,
    d: Described,
) -> fmt::Result {
    match d {
        Described::Application(x) => {
            put_items(page, s, holder, Repeated::Profiles, x.profiles)?;
            put_items(page, s, holder, Repeated::Labels, x.labels)
        }
        Described::Names(names) => put_items(page, s, holder, Repeated::Names, names),
        Described::Bases(x) => put_items(page, s, holder, Repeated::Bases, x.bases),
        Described::Identifiers(identifiers) => {
            put_items(page, s, holder, Repeated::Identifiers, identifiers)
        }
        _ => Ok(()),
    }
}

fn put_items<P: Print>(
    page: &mut Page<P>,
    s: &[u8],
    holder: Holder,
    what: Repeated,
    count: usize,
) -> fmt::Result {
    for k in 0..count {
        if let Ok(x) = ait_read::item_at(s, holder.scope, holder.place, what, k) {
            put_item(page, s, holder, k, x)?;
        }
    }
    Ok(())
}
