// The shore player: from an announcement within the limits and an image holding its modules, one
// rotation, section by section: the announcement, then each block in order (02, §13).
//
// The bytes are defined in specs/Bytes.antt, the rotation in specs/Rotation.antt, and what the calls
// answer in specs/Calls.antt. What the box makes of a rotation is in crate `demands`, Player.antt.
#![tactic(auto)]

mod frame;
mod payloads;
mod refusals;
mod sections;
mod spell;
mod spots;

ghost use Rattle.std.specs.Prelude.{◌≡◌, length};
ghost use Rattle.carousel_play.specs.Calls.{count_answer, play_answer, played_bytes};

use carousel_messages::{Listed, MOST_MODULES};
use refusals::{judge_before, judge_limits};
use sections::{write_announcement, write_block};
use spots::{sections_in, spot_at};

// What is to be played: an announcement. Entries from the count on are not looked at. It has C's layout: programs in C fill it.
#[repr(C)]
#[derive(Clone, Copy)]
pub struct Playlist {
    pub download: u32,
    pub block_size: u16,
    pub count: u16,
    pub modules: [Listed; MOST_MODULES],
}

// A buffer of so many bytes has room for every section.
pub const LARGEST_SECTION: usize = 4096;

// How many sections one rotation has; or the refusal's number.
pub fn section_count(p: Playlist) -> Result<usize, u8>
    ensures { result ≡ count_answer p }
{
    judge_limits(p)?;
    Ok(sections_in(p))
}

// Writes the section at a place of the rotation at the start of a buffer: at 0 the announcement, with this identifier. It
// answers the section's size; or the refusal's number, and nothing is written.
pub fn write_section(
    p: Playlist,
    image: &[u8],
    identifier: u32,
    place: usize,
    out: &mut [u8],
) -> Result<usize, u8>
    ensures { (result ≡ play_answer identifier p image.now place (length out.old))
        × (out.new ≡ played_bytes identifier p image.now place out.old) }
{
    judge_before(p, image.len())?;
    if place == 0 {
        return write_announcement(out, identifier, p);
    }
    let Some(spot) = spot_at(p, place - 1) else {
        return Err(19);
    };
    write_block(out, p, image, spot)
}
