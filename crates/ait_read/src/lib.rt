// The application section (AIT, table 0x74), read whole out of lent bytes: `read`, a call for each
// thing that is asked for by place, from 0, and the look-up of labels.
//
// Every call judges the section first and answers its refusal (2 to 7, 18); a place that is not
// there is 19. What each answer is, is said in specs/Answers.antt, over specs/Places.antt (where
// things lie) and what is read of each: specs/Records.antt for applications, and for descriptors and
// their items the files of ait_descriptors, one for each tag.
#![tactic(auto)]

mod acceptance;
mod classes;
mod labels;
mod places;
mod records;

ghost use Rattle.std.specs.Prelude.{◌≡◌};
ghost use Rattle.ait_read.specs.Places.{application_at, descriptor_at, repeated_at, extension_at};
ghost use Rattle.ait_read.specs.Answers.{read_answer, application_answer, descriptor_answer, item_answer, extension_answer, number_of_read};
ghost use Rattle.ait_read.specs.Answers.{read_number, place_number, span_part};

pub use acceptance::judge_by;
use acceptance::{judge, locate};
use ait_descriptors::{
    Described, Item, Kind, Repeated, Span, count_within, describe, extension_of, item_of,
};
pub use classes::{class_of, control_of};
pub use labels::resolve;
use places::{
    application_place, common_place, descriptor_place, extension_place, loop_place, repeated_place,
};
use records::application_of;
use section::Refusal;

// The class of an application number.
#[derive(Clone, Copy)]
pub enum Class {
    Unsigned,
    Signed,
    Other,
    Wildcard,
}

// The class of a control code.
#[derive(Clone, Copy)]
pub enum Control {
    Autostart,
    Present,
    Destroy,
    Kill,
    Remote,
    Reserved,
}

// Whose descriptors: the section's common ones, or those of the application at a place.
#[derive(Clone, Copy)]
pub enum Scope {
    Common,
    Own(usize),
}

// The section's header, and how much it has.
#[derive(Clone, Copy)]
pub struct Table {
    pub test: u16,
    pub application_type: u16,
    pub version: u8,
    pub section: u8,
    pub last: u8,
    pub common: usize,
    pub applications: usize,
}

#[derive(Clone, Copy)]
pub struct Application {
    pub organisation: u32,
    pub number: u16,
    pub class: Class,
    pub code: u8,
    pub control: Control,
    pub descriptors: usize,
}

// Where a label's 0x02 descriptor stands: its place among the application's own descriptors, or
// among those of a common loop, by the loop's number (0: the section's own).
#[derive(Clone, Copy)]
pub enum Resolved {
    Own(usize),
    Common(usize, usize),
}

// The header's fields, and how many common descriptors and applications there are.
pub fn read(s: &[u8]) -> Result<Table, Refusal>
    ensures { (result ≡ read_answer s.now) × (number_of_read result ≡ read_number s.now) }
{
    let h = judge(s)?;
    Ok(Table {
        test: h.extension >> 15,
        application_type: h.extension & 0x7FFF,
        version: h.version,
        section: h.section,
        last: h.last,
        common: count_within(s, common_place(s), Kind::Descriptor),
        applications: count_within(s, loop_place(s), Kind::Application),
    })
}

// The application at place i.
pub fn application_at(s: &[u8], i: usize) -> Result<Application, Refusal>
    ensures { (result ≡ application_answer s.now i)
        × (number_of_read result ≡ place_number s.now (application_at i s.now)) }
{
    let at = locate(s, application_place(s, i))?;
    Ok(application_of(part(s, at)))
}

// The descriptor at place j of a scope.
pub fn descriptor_at(s: &[u8], scope: Scope, j: usize) -> Result<Described, Refusal>
    ensures { (result ≡ descriptor_answer s.now scope j)
        × (number_of_read result ≡ place_number s.now (descriptor_at scope j s.now)) }
{
    let at = locate(s, descriptor_place(s, scope, j))?;
    Ok(describe(part(s, at), at.start as u16))
}

// The item at place k of those that repeat in the descriptor at place j of a scope.
pub fn item_at(s: &[u8], scope: Scope, j: usize, what: Repeated, k: usize) -> Result<Item, Refusal>
    ensures { (result ≡ item_answer s.now scope j what k)
        × (number_of_read result ≡ place_number s.now (repeated_at scope j what k s.now)) }
{
    let at = locate(s, repeated_place(s, scope, j, what, k))?;
    Ok(item_of(part(s, at), at.start as u16, what))
}

// The extension at place m of the base at place k.
pub fn extension_at(s: &[u8], scope: Scope, j: usize, k: usize, m: usize) -> Result<Span, Refusal>
    ensures { (result ≡ extension_answer s.now scope j k m)
        × (number_of_read result ≡ place_number s.now (extension_at scope j k m s.now)) }
{
    let at = locate(s, extension_place(s, scope, j, k, m))?;
    Ok(extension_of(part(s, at), at.start as u16))
}

// The bytes that a span names, as a part of the section; none where it runs past the end.
pub fn part<'a>(s: &'a [u8], at: Span) -> &'a [u8]
    ensures { result.now ≡ span_part s.now at.start at.size }
{
    if s.len() < at.size {
        return &s[..0];
    }
    if s.len() - at.size < at.start {
        return &s[..0];
    }
    let e = at.start + at.size;
    &s[at.start..e]
}
