// What is read of an application section, as structs of numbers: what `nebosvar` hands to programs in C and Rust.
//
// Nothing is decided here. Each call is one of `ait_read`, its answer laid out; specs/Reading.antt says how. Each
// tag has a file of its own, src/tag00.rt and so on, beside specs/Tag00.antt: its numbers and its items'.
// src/kinds.rt has a line for each kind in each list.
#![tactic(auto)]

mod classes;
mod kinds;
mod shapes;
mod tag00;
mod tag01;
mod tag02;
mod tag05;
mod tag15;

ghost use Rattle.std.specs.Prelude.{◌≡◌};
ghost use Rattle.ait_read.specs.Answers.{read_answer, application_answer, descriptor_answer, extension_answer, resolve_answer};
ghost use Rattle.ait_numbers.specs.Shapes.{spot_number};
ghost use Rattle.ait_numbers.specs.Reading.{table_out, application_out, descriptor_out, item_asked, item_out, extension_out, label_out, scope_of, no_place};

use crate::classes::{class_number, control_number};
use crate::kinds::{asked_by, described_out, found_out};
use crate::shapes::{no_descriptor, no_item};
use ait_descriptors::Item;
use ait_read::{Resolved, Scope};
use section::Refusal;

// Stands for the common loop where an application's place is asked for.
const COMMON: usize = 0xFFFF_FFFF_FFFF_FFFF;

// Stands for no place beside a refusal, or none: no section is so long.
pub const NOWHERE: usize = 0xFFFF_FFFF_FFFF_FFFF;

#[repr(C)]
#[derive(Clone, Copy, Default)]
pub struct TableOut {
    pub common: usize,
    pub applications: usize,
    pub refused_at: usize,
    pub test: u16,
    pub application_type: u16,
    pub version: u8,
    pub section: u8,
    pub last: u8,
    pub refusal: u8,
}

#[repr(C)]
#[derive(Clone, Copy, Default)]
pub struct ApplicationOut {
    pub descriptors: usize,
    pub refused_at: usize,
    pub organisation: u32,
    pub number: u16,
    pub class_number: u8,
    pub code: u8,
    pub control: u8,
    pub refusal: u8,
}

// A descriptor: its tag and, under 0x02, its protocol; what its kind does not have is 0.
#[repr(C)]
#[derive(Clone, Copy)]
pub struct DescriptorOut {
    pub count: usize,
    pub labels: usize,
    pub at: usize,
    pub length: usize,
    pub refused_at: usize,
    pub protocol: u16,
    pub network: u16,
    pub transport: u16,
    pub service: u16,
    pub kind: u8,
    pub tag: u8,
    pub label: u8,
    pub component: u8,
    pub bound: u8,
    pub visibility: u8,
    pub priority: u8,
    pub refusal: u8,
}

// What repeats within a descriptor. What its kind does not have is 0.
#[repr(C)]
#[derive(Clone, Copy)]
pub struct ItemOut {
    pub at: usize,
    pub length: usize,
    pub extensions: usize,
    pub refused_at: usize,
    pub organisation: u32,
    pub number: u16,
    pub class_number: u8,
    pub kind: u8,
    pub label: u8,
    pub major: u8,
    pub minor: u8,
    pub micro: u8,
    pub priority: u8,
    pub first: u8,
    pub second: u8,
    pub third: u8,
    pub refusal: u8,
}

// Where a part lies in the bytes that were lent; at and length are 0 on a refusal.
#[repr(C)]
#[derive(Clone, Copy, Default)]
pub struct PartOut {
    pub at: usize,
    pub length: usize,
    pub refused_at: usize,
    pub refusal: u8,
}

#[repr(C)]
#[derive(Clone, Copy, Default)]
pub struct LabelOut {
    pub common: usize,
    pub place: usize,
    pub refused_at: usize,
    pub found: u8,
    pub refusal: u8,
}

// The section's header, and how many common descriptors and applications it has.
pub fn table(s: &[u8]) -> TableOut
    ensures { result ≡ table_out (read_answer s.now) }
{
    match ait_read::read(s) {
        Err(r) => TableOut {
            refused_at: place_told(r),
            refusal: r.number,
            ..TableOut::default()
        },
        Ok(t) => TableOut {
            common: t.common,
            applications: t.applications,
            test: t.test,
            application_type: t.application_type,
            version: t.version,
            section: t.section,
            last: t.last,
            refused_at: NOWHERE,
            refusal: 0,
        },
    }
}

// The application at place i.
pub fn application(s: &[u8], i: usize) -> ApplicationOut
    ensures { result ≡ application_out (application_answer s.now i) }
{
    match ait_read::application_at(s, i) {
        Err(r) => ApplicationOut {
            refused_at: place_told(r),
            refusal: r.number,
            ..ApplicationOut::default()
        },
        Ok(x) => ApplicationOut {
            descriptors: x.descriptors,
            organisation: x.organisation,
            number: x.number,
            class_number: class_number(x.class),
            code: x.code,
            control: control_number(x.control),
            refused_at: NOWHERE,
            refusal: 0,
        },
    }
}

// The descriptor at place j of the application at place i, or of the common loop.
pub fn descriptor(s: &[u8], i: usize, j: usize) -> DescriptorOut
    ensures { result ≡ descriptor_out (descriptor_answer s.now (scope_of i) j) }
{
    match ait_read::descriptor_at(s, scope_of(i), j) {
        Err(r) => no_descriptor(r),
        Ok(d) => described_out(d),
    }
}

// The item at place k of those of a kind in that descriptor. A kind that is none of the five has no place.
pub fn item(s: &[u8], i: usize, j: usize, kind: u8, k: usize) -> ItemOut
    ensures { result ≡ item_out (item_asked s.now (scope_of i) j kind k) }
{
    match item_asked(s, scope_of(i), j, kind, k) {
        Err(r) => no_item(r),
        Ok(x) => found_out(x),
    }
}

// The extension at place m of the base at place k in that descriptor.
pub fn extension(s: &[u8], i: usize, j: usize, k: usize, m: usize) -> PartOut
    ensures { result ≡ extension_out (extension_answer s.now (scope_of i) j k m) }
{
    match ait_read::extension_at(s, scope_of(i), j, k, m) {
        Err(r) => PartOut {
            refused_at: place_told(r),
            refusal: r.number,
            ..PartOut::default()
        },
        Ok(x) => PartOut {
            at: x.start,
            length: x.size,
            refused_at: NOWHERE,
            refusal: 0,
        },
    }
}

// Where the descriptor stands that label k of the application at place i names.
pub fn label(s: &[u8], i: usize, k: usize) -> LabelOut
    ensures { result ≡ label_out (resolve_answer s.now i k) }
{
    match ait_read::resolve(s, i, k) {
        Err(r) => LabelOut {
            refused_at: place_told(r),
            refusal: r.number,
            ..LabelOut::default()
        },
        Ok(Some(Resolved::Own(j))) => LabelOut {
            common: 0,
            place: j,
            found: 1,
            refused_at: NOWHERE,
            refusal: 0,
        },
        Ok(Some(Resolved::Common(n, j))) => LabelOut {
            common: n,
            place: j,
            found: 2,
            refused_at: NOWHERE,
            refusal: 0,
        },
        Ok(None) => LabelOut {
            common: 0,
            place: 0,
            found: 3,
            refused_at: NOWHERE,
            refusal: 0,
        },
    }
}

// Where a section broke, as a number, of its refusal.
fn place_told(refusal: Refusal) -> usize
    ensures { result ≡ spot_number refusal.place }
{
    spot_number(refusal.place)
}

// And of the place itself.
pub fn spot_number(place: Option<usize>) -> usize
    ensures { result ≡ spot_number place }
{
    place.unwrap_or(NOWHERE)
}

fn scope_of(i: usize) -> Scope
    ensures { result ≡ scope_of i }
{
    if i == COMMON {
        return Scope::Common;
    }
    Scope::Own(i)
}

fn item_asked(s: &[u8], scope: Scope, j: usize, kind: u8, k: usize) -> Result<Item, Refusal>
    ensures { result ≡ item_asked s.now scope j kind k }
{
    match asked_by(kind) {
        Some(what) => ait_read::item_at(s, scope, j, what, k),
        None => no_place(s),
    }
}

// No such place, of a section that is accepted.
fn no_place(s: &[u8]) -> Result<Item, Refusal>
    ensures { result ≡ no_place (read_answer s.now) }
{
    ait_read::read(s)?;
    Err(Refusal {
        number: 19,
        place: None,
    })
}
