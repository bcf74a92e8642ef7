// An accepted table: its header, its common descriptors and its applications.
use crate::fields::Holder;
use crate::items::put_below;
use crate::kinds::put_descriptor;
use crate::page::Page;
use ait_read::{Class, Control, Scope};
use std::fmt;
use std::fmt::Write;

pub fn put_table<P: Print>(page: &mut Page<P>, s: &[u8]) -> fmt::Result {
    let Ok(t) = ait_read::read(s) else {
        return Ok(());
    };
    let test = t.test;
    let application_type = t.application_type;
    let version = t.version;
    let section = t.section;
    let last = t.last;
    let common = t.common;
    let applications = t.applications;
    writeln!(
        page,
        "table,{test},{application_type},{version},{section},{last},{common},{applications}"
    )?;
    put_descriptors(page, s, Scope::Common, common)?;
    for i in 0..applications {
        put_application(page, s, i)?;
    }
    Ok(())
}

// The application at place i, and its descriptors.
fn put_application<P: Print>(page: &mut Page<P>, s: &[u8], i: usize) -> fmt::Result {
    let Ok(a) = ait_read::application_at(s, i) else {
        return Ok(());
    };
    let organisation = a.organisation;
    let number = a.number;
    let class = class_name(a.class);
    let code = a.code;
    let control = control_name(a.control);
    let descriptors = a.descriptors;
    writeln!(
        page,
        "application,{i},{organisation},{number},{class},{code},{control},{descriptors}"
    )?;
    put_descriptors(page, s, Scope::Own(i), descriptors)
}

fn class_name(class: Class) -> &'static str {
    match class {
        Class::Unsigned => "unsigned",
        Class::Signed => "signed",
        Class::Other => "other",
        Class::Wildcard => "wildcard",
    }
}

fn control_name(control: Control) -> &'static str {
    match control {
        Control::Autostart => "autostart",
        Control::Present => "present",
        Control::Destroy => "destroy",
        Control::Kill => "kill",
        Control::Remote => "remote",
        Control::Reserved => "reserved",
    }
}

// The descriptors of a loop, the common one or an application's, each with its items below it.
fn put_descriptors<P: Print>(
    page: &mut Page<P>,
    s: &[u8],
    scope: Scope,
    count: usize,
) -> fmt::Result {
    for place in 0..count {
        if let Ok(d) = ait_read::descriptor_at(s, scope, place) {
            let holder = Holder { scope, place };
            put_descriptor(page, holder, d)?;
            put_below(page, s, holder, d)?;
        }
    }
    Ok(())
}
