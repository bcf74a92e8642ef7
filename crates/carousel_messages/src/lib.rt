// Announcements (DII) and blocks (DDB): a carousel section, judged before any record is looked at
// (refusals 2 to 11).
//
// What a message's fields are is said in specs/Message.antt and specs/Contents.antt, the limits of
// 10 and 11 in specs/Limits.antt, one test for each number in specs/Refusals.antt, and the answer,
// an equation for every slice, in specs/Judged.antt.
#![tactic(auto)]

mod body;
mod limits;
mod modules;

ghost use Rattle.std.specs.Prelude.{◌≡◌};
ghost use Rattle.wire.specs.Tests.{first_met};
ghost use Rattle.carousel_messages.specs.Judged.{judged_by, judged_of, number_of_judged, carousel_tests};

use body::judge_message;
pub use limits::{
    LARGEST_BLOCK, MOST_BLOCKS, MOST_BYTES, MOST_MODULES, has_twice, is_beyond, place_from, total,
};
pub use modules::module_at;
use section::{Refusal, Rules};
use wire::Span;

// Which of the carousel's two tables.
#[derive(Clone, Copy)]
pub enum CarouselTable {
    Announcements,
    Blocks,
}

// An announcement, and where its modules lie in the section.
#[derive(Clone, Copy)]
pub struct Announcement {
    pub download: u32,
    pub block_size: u16,
    pub count: usize,
    pub part: Span,
}

// A block, and where its data lie in the section.
#[derive(Clone, Copy)]
pub struct Block {
    pub download: u32,
    pub number: u16,
    pub version: u8,
    pub block: u16,
    pub part: Span,
}

// A module as it is announced. It has C's layout: programs in C hold it.
#[repr(C)]
#[derive(Clone, Copy, PartialEq, Eq, Default)]
pub struct Listed {
    pub number: u16,
    pub size: u32,
    pub version: u8,
}

// What an accepted section says.
#[derive(Clone, Copy)]
pub enum Message {
    Announced(Announcement),
    Carried(Block),
}

// What a carousel section is, whatever was announced before.
pub fn judge(s: &[u8]) -> Result<Message, Refusal>
    ensures { (result ≡ judged_of s.now) × (number_of_judged result ≡ first_met (carousel_tests s.now)) }
{
    judge_by(s, section::crc(s))
}

// The same for whoever has the register already: what `s` leaves, or any other number.
pub fn judge_by(s: &[u8], register: u32) -> Result<Message, Refusal>
    ensures { result ≡ judged_by register s.now }
{
    let header = section::check_by(s, Rules::Carousel, register)?;
    let e = s.len() - 4;
    judge_message(&s[8..e], header)
}
