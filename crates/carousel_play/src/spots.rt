// Where the blocks of a rotation are: how many there are, and which stands at a place.
ghost use Rattle.std.specs.Prelude.{◌≡◌, ◌+◌, ◌≤◌, None, IfSome};
ghost use Rattle.carousel_messages.specs.Limits.{most_modules};
ghost use Rattle.carousel_play.specs.Rotation.{blocks_to, section_count};
ghost use Rattle.carousel_play.specs.Calls.{to_play};
ghost use Rattle.carousel_play.specs.Pieces.{StandsIn};

use crate::Playlist;
use carousel_record::blocks_of;

// A block of the rotation: its module's place, its number, and where its module starts in the image.
#[derive(Clone, Copy)]
pub struct Spot {
    pub which: usize,
    pub block: usize,
    pub start: usize,
}

// The sections of a rotation: the announcement, and the blocks of each module.
pub fn sections_in(p: Playlist) -> usize
    requires { p.count ≤ most_modules }
    ensures { result ≡ section_count (to_play p) }
{
    let n = p.count as usize;
    let ms = p.modules;
    let mut sum: usize = 1;
    for m in &ms[..n] {
        sum += blocks_of(p.block_size, m.size);
    }
    sum
}

// The block at a place of the rotation, counted from the first block, if there is one.
pub fn spot_at(p: Playlist, place: usize) -> Option<Spot>
    requires { p.count ≤ most_modules }
    ensures { IfSome result (λ s. StandsIn (to_play p) s × (place ≡ blocks_to (to_play p) s.which + s.block))
        × (result ≡ None → section_count (to_play p) ≤ 1 + place) }
{
    let n = p.count as usize;
    let ms = p.modules;
    let mut left = place;
    let mut start: usize = 0;
    for i in 0..n {
        let m = ms[i];
        let b = blocks_of(p.block_size, m.size);
        if left < b {
            return Some(Spot {
                which: i,
                block: left,
                start,
            });
        }
        left -= b;
        start += m.size as usize;
    }
    None
}
