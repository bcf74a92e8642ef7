// Reads stretches from standard input, each after its length (16 bits), takes each as an application
// section, and writes all that can be asked of it by place, up to the first refusal of each list.
// tests/test_ait.py, an independent second program, makes the input and says what must
// come out.
#![tactic(auto)]

mod kinds;
mod print;
mod tag00;
mod tag01;
mod tag02;
mod tag05;
mod tag15;

use crate::kinds::{print_described, print_item};
use crate::print::*;
use crate::tag02::print_extensions;
use ait_descriptors::{Item, Repeated};
use ait_read::{Application, Class, Control, Resolved, Scope};
use std::io;
use streams::Cases;

fn main(rt: HostRuntime) -> io::Result<()> {
    let mut buffer = [0; streams::LARGE];
    let n = streams::read_full(&mut rt.stdin(), &mut buffer);
    print_each(&rt, &buffer[..n])
}

// Each stretch, as far as whole ones go.
fn print_each(rt: &impl Print, s: &[u8]) -> io::Result<()> {
    for case in Cases::of(s) {
        print_section(rt, case)?;
    }
    Ok(())
}

fn print_section(rt: &impl Print, s: &[u8]) -> io::Result<()> {
    rt.write_all(b"section")?;
    match ait_read::read(s) {
        Err(r) => print_refusal(rt, r)?,
        Ok(t) => {
            print_number(rt, 0)?;
            print_number(rt, t.test as u64)?;
            print_number(rt, t.application_type as u64)?;
            print_number(rt, t.version as u64)?;
            print_number(rt, t.section as u64)?;
            print_number(rt, t.last as u64)?;
            print_number(rt, t.common as u64)?;
            print_number(rt, t.applications as u64)?;
            rt.write_all(b"\n")?;
        }
    }
    print_descriptors(rt, s, Scope::Common)?;
    print_applications(rt, s)
}

fn print_applications(rt: &impl Print, s: &[u8]) -> io::Result<()> {
    for i in 0..256 {
        match ait_read::application_at(s, i) {
            Err(r) => return print_end(rt, r),
            Ok(a) => print_application(rt, a)?,
        }
        print_descriptors(rt, s, Scope::Own(i))?;
        print_labels(rt, s, i)?;
    }
    Ok(())
}

fn print_descriptors(rt: &impl Print, s: &[u8], scope: Scope) -> io::Result<()> {
    for j in 0..1024 {
        match ait_read::descriptor_at(s, scope, j) {
            Err(r) => return print_end(rt, r),
            Ok(d) => print_described(rt, s, d)?,
        }
        print_items(rt, s, scope, j, Repeated::Profiles)?;
        print_items(rt, s, scope, j, Repeated::Labels)?;
        print_items(rt, s, scope, j, Repeated::Names)?;
        print_items(rt, s, scope, j, Repeated::Bases)?;
        print_items(rt, s, scope, j, Repeated::Identifiers)?;
    }
    Ok(())
}

fn print_items(
    rt: &impl Print,
    s: &[u8],
    scope: Scope,
    j: usize,
    what: Repeated,
) -> io::Result<()> {
    for k in 0..1024 {
        match ait_read::item_at(s, scope, j, what, k) {
            Err(r) => return print_end(rt, r),
            Ok(x) => {
                print_item(rt, s, x)?;
                if let Item::Base(_) = x {
                    print_extensions(rt, s, scope, j, k)?;
                }
            }
        }
    }
    Ok(())
}

fn print_labels(rt: &impl Print, s: &[u8], i: usize) -> io::Result<()> {
    for k in 0..1024 {
        match ait_read::resolve(s, i, k) {
            Err(r) => return print_end(rt, r),
            Ok(resolved) => print_resolved(rt, resolved)?,
        }
    }
    Ok(())
}

fn print_application(rt: &impl Print, a: Application) -> io::Result<()> {
    rt.write_all(b"application")?;
    print_number(rt, a.organisation as u64)?;
    print_number(rt, a.number as u64)?;
    print_class(rt, a.class)?;
    print_number(rt, a.code as u64)?;
    print_control(rt, a.control)?;
    print_number(rt, a.descriptors as u64)?;
    rt.write_all(b"\n")
}

fn print_class(rt: &impl Print, c: Class) -> io::Result<()> {
    match c {
        Class::Unsigned => rt.write_all(b" unsigned"),
        Class::Signed => rt.write_all(b" signed"),
        Class::Other => rt.write_all(b" other"),
        Class::Wildcard => rt.write_all(b" wildcard"),
    }
}

fn print_control(rt: &impl Print, c: Control) -> io::Result<()> {
    match c {
        Control::Autostart => rt.write_all(b" autostart"),
        Control::Present => rt.write_all(b" present"),
        Control::Destroy => rt.write_all(b" destroy"),
        Control::Kill => rt.write_all(b" kill"),
        Control::Remote => rt.write_all(b" remote"),
        Control::Reserved => rt.write_all(b" reserved"),
    }
}

fn print_resolved(rt: &impl Print, r: Option<Resolved>) -> io::Result<()> {
    match r {
        Some(Resolved::Own(j)) => {
            rt.write_all(b"own")?;
            print_number(rt, j as u64)?;
            rt.write_all(b"\n")
        }
        Some(Resolved::Common(n, j)) => {
            rt.write_all(b"common")?;
            print_number(rt, n as u64)?;
            print_number(rt, j as u64)?;
            rt.write_all(b"\n")
        }
        None => rt.write_all(b"unresolved\n"),
    }
}
