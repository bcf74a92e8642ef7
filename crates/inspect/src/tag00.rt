// Lines of a 0x00, its profiles and its labels.
use crate::fields::Holder;
use crate::page::Page;
use ait_descriptors::{ApplicationDescriptor, Profile};
use ait_read::{Resolved, Scope};
use std::fmt;
use std::fmt::Write;

pub fn put_application_descriptor<P: Print>(
    page: &mut Page<P>,
    x: ApplicationDescriptor,
) -> fmt::Result {
    let profiles = x.profiles;
    let bound = x.bound;
    let visibility = x.visibility;
    let priority = x.priority;
    let labels = x.labels;
    writeln!(
        page,
        "0,application,{profiles},{bound},{visibility},{priority},{labels}"
    )
}

pub fn put_profile<P: Print>(
    page: &mut Page<P>,
    holder: Holder,
    k: usize,
    p: Profile,
) -> fmt::Result {
    let number = p.number;
    let major = p.major;
    let minor = p.minor;
    let micro = p.micro;
    writeln!(
        page,
        "profile,{holder},{k},{number},{major},{minor},{micro}"
    )
}

// A label, the loop in which its 0x02 descriptor stands, and its place there. Only an application's labels are looked up.
pub fn put_label<P: Print>(
    page: &mut Page<P>,
    s: &[u8],
    holder: Holder,
    k: usize,
    label: u8,
) -> fmt::Result {
    write!(page, "label,{holder},{k},{label},")?;
    let Scope::Own(i) = holder.scope else {
        return writeln!(page, ",");
    };
    match ait_read::resolve(s, i, k) {
        Ok(Some(Resolved::Own(j))) => writeln!(page, "own,{j}"),
        Ok(Some(Resolved::Common(_, j))) => writeln!(page, "common,{j}"),
        Ok(None) => writeln!(page, "unresolved,"),
        Err(_) => writeln!(page, ","),
    }
}
