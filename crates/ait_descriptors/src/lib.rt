// The kinds of descriptor, their contents, and what is read of each.
//
// Each tag that is known has a file of its own, src/tag00.rt and so on, beside specs/Tag00.antt: its
// fields, its items and where they lie, when its contents are well formed. This file and
// src/descriptor.rt have a line for each tag in each list. A kind of item is its size function
// (specs/Kinds.antt); one loop for each question goes over items of every kind (src/kinds.rt,
// src/lists.rt).
#![tactic(auto)]

mod descriptor;
mod kinds;
mod lists;
mod parts;
mod tag00;
mod tag01;
mod tag02;
mod tag02_size;
mod tag05;
mod tag15;

pub use descriptor::{describe, item_of, kind_of, list_in};
pub use kinds::{fills, size_of};
pub use lists::{find, item_place, walk_loop};
pub use parts::count_within;
pub use tag00::{ApplicationDescriptor, Profile};
pub use tag01::Name;
pub use tag02::{Base, Bases, Local, Remote, Selector, extension_of, extensions_in};
pub use tag05::Identifier;
pub use wire::Span;

// The kinds of item that repeat.
#[derive(Clone, Copy)]
pub enum Kind {
    Application,
    Descriptor,
    Profile,
    Label,
    Name,
    Base,
    Extension,
    Identifier,
}

// What a descriptor may be asked: whether known contents are malformed; whether it has a tag;
// whether it is a 0x02 with a label.
#[derive(Clone, Copy)]
pub enum Test {
    Malformed,
    Tagged(u8),
    Labelled(u8),
}

// What is repeated within a descriptor.
#[derive(Clone, Copy)]
pub enum Repeated {
    Profiles,
    Labels,
    Names,
    Bases,
    Identifiers,
}

// A descriptor whose tag is not known.
#[derive(Clone, Copy)]
pub struct Raw {
    pub tag: u8,
    pub contents: Span,
}

// A descriptor, by its tag: its fields; where it has none but its items, how many of them; where it has
// but bytes, those. A 0x02 is Local or Remote (protocol 1), Bases (protocol 3) or Selector (any other).
#[derive(Clone, Copy)]
pub enum Described {
    Application(ApplicationDescriptor),
    Names(usize),
    Local(Local),
    Remote(Remote),
    Bases(Bases),
    Selector(Selector),
    Identifiers(usize),
    Path(Span),
    Raw(Raw),
}

// What repeats within a descriptor: one case for each of `Repeated`.
#[derive(Clone, Copy)]
pub enum Item {
    Profile(Profile),
    Label(u8),
    Name(Name),
    Base(Base),
    Identifier(Identifier),
}
