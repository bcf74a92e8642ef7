// Lines of a 0x05 and its identifiers.
use crate::fields::Holder;
use crate::page::Page;
use ait_descriptors::Identifier;
use std::fmt;
use std::fmt::Write;

pub fn put_identifiers<P: Print>(page: &mut Page<P>, identifiers: usize) -> fmt::Result {
    writeln!(page, "5,identifiers,{identifiers}")
}

pub fn put_identifier<P: Print>(
    page: &mut Page<P>,
    holder: Holder,
    k: usize,
    i: Identifier,
) -> fmt::Result {
    let organisation = i.organisation;
    let number = i.number;
    let priority = i.priority;
    writeln!(
        page,
        "identifier,{holder},{k},{organisation},{number},{priority}"
    )
}
