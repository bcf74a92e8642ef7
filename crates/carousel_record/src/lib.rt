// The carousel record: what was announced, where each module lies in the image, and which blocks have come.
//
// What a record says and its rule are in specs/Record.antt, the ways in which it changes in specs/Changes.antt, and in specs/Refusals.antt
// what it holds against a section and against a hand-out alike. A record may be lent
// broken: each call here has its answer for any record, and `is_ruled` tells whether one keeps its rule.
#![tactic(auto)]

mod blocks;
mod entries;
mod marks;
mod rule;

ghost use Rattle.std.specs.Prelude.{◌≡◌, length};
ghost use Rattle.carousel_messages.specs.Heard.{found};
ghost use Rattle.carousel_record.specs.Record.{listed_in, announced_by, place_of, slot_of, bytes_of, head_of, joined_of};
ghost use Rattle.carousel_record.specs.Changes.{empty_record};

pub use blocks::{blocks_of, is_block};
use carousel_messages::{Listed, MOST_MODULES, total};
use entries::listed;
pub use entries::{numbers_of, place_in, slot_in};
pub use marks::{MARK_WORDS, MODULE_WORDS, is_marked, set_mark};
pub use rule::is_ruled;

// An announced module, and where it starts in the image. This and the record have C's layout: programs in C hold them.
#[repr(C)]
#[derive(Clone, Copy, PartialEq, Eq, Default)]
pub struct Module {
    pub number: u16,
    pub size: u32,
    pub version: u8,
    pub start: u32,
}

impl Module {
    // The same as it is announced.
    pub fn listed(self) -> Listed
        ensures { result ≡ listed_in self }
    {
        Listed {
            number: self.number,
            size: self.size,
            version: self.version,
        }
    }
}

// An entry that was found, and its place.
#[derive(Clone, Copy)]
pub struct Slot {
    pub place: usize,
    pub entry: Module,
}

#[repr(C)]
#[derive(Clone, Copy)]
pub struct Carousel {
    pub download: u32,
    pub block_size: u16,
    pub count: u16,
    pub modules: [Module; MOST_MODULES],
    pub marks: [u32; MARK_WORDS],
}

// What stands at a record's head, and the sizes of its modules together: few numbers, which go from call to call where the entries and
// the marks do not.
#[derive(Clone, Copy)]
pub struct Head {
    pub download: u32,
    pub block_size: u16,
    pub count: u16,
    pub bytes: usize,
}

// The record that one starts with.
pub fn empty() -> Carousel
    ensures { result ≡ empty_record }
{
    Carousel {
        download: 0,
        block_size: 0,
        count: 0,
        modules: [Module::default(); MOST_MODULES],
        marks: [0u32; MARK_WORDS],
    }
}

// The place of the announced module with this number.
pub fn place_of(c: Carousel, number: u16) -> Option<usize>
    ensures { result ≡ found (place_of (announced_by c) number) (length (announced_by c).modules) }
{
    let ms = c.modules;
    let numbers = numbers_of(ms);
    place_in(&numbers, c.count as usize, number)
}

// The entry of the announced module with this number, and its place.
pub fn slot_of(c: Carousel, number: u16) -> Option<Slot>
    ensures { result ≡ slot_of c number }
{
    let ms = c.modules;
    let numbers = numbers_of(ms);
    slot_in(&numbers, &ms, c.count as usize, number)
}

// The sizes of the announced modules together.
pub fn bytes_of(c: Carousel) -> usize
    ensures { result ≡ bytes_of (announced_by c) }
{
    total(listed(c), c.count as usize)
}

// A record's head.
pub fn head_of(c: Carousel) -> Head
    ensures { result ≡ head_of c }
{
    Head {
        download: c.download,
        block_size: c.block_size,
        count: c.count,
        bytes: bytes_of(c),
    }
}

// The record that a head, entries and marks are parts of.
pub fn joined(h: Head, ms: [Module; MOST_MODULES], marks: [u32; MARK_WORDS]) -> Carousel
    ensures { result ≡ joined_of h ms marks }
{
    Carousel {
        download: h.download,
        block_size: h.block_size,
        count: h.count,
        modules: ms,
        marks: marks,
    }
}
