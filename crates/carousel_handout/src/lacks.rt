// What a module lacks: the blocks that have no mark.
ghost use Rattle.std.specs.Prelude.{◌≡◌, true, ◌+◌, ◌*◌, ◌<◌, ◌≤◌};
ghost use Rattle.carousel_messages.specs.Limits.{most_modules, most_blocks};
ghost use Rattle.carousel_record.specs.Marks.{clear_among};
ghost use Rattle.carousel_record.specs.Record.{record_of, missing_of, ruled_of};
ghost use Rattle.carousel_handout.specs.Calls.{lack_of, one_more};

use crate::Lack;
use carousel_messages::MOST_BLOCKS;
use carousel_record::{Carousel, blocks_of, is_marked};

// What the module at a place lacks.
pub fn lack_of(c: Carousel, place: usize) -> Lack
    requires { (ruled_of c ≡ true) × (place < c.count) }
    ensures { result ≡ lack_of (missing_of (record_of c) place) }
{
    let ms = c.modules;
    let m = ms[place];
    let marks = c.marks;
    lack_among(&marks, MOST_BLOCKS * place, blocks_of(c.block_size, m.size))
}

// How many of n blocks have no mark, and the lowest of them; `first` is the mark of block 0.
fn lack_among(words: &[u32], first: usize, n: usize) -> Lack
    requires { first + n ≤ most_modules * most_blocks }
    ensures { result ≡ lack_of (clear_among words.now first 0 n) }
{
    let mut lack = Lack {
        count: 0,
        lowest: 0,
    };
    for b in (0..n).rev() {
        let here = is_marked(words, first + b);
        lack = with_block(lack, b, here);
    }
    lack
}

// One block before those that were looked at.
fn with_block(lack: Lack, b: usize, here: bool) -> Lack
    requires { lack.count < most_modules * most_blocks }
    ensures { result ≡ one_more lack b here }
{
    if here {
        return lack;
    }
    Lack {
        count: lack.count + 1,
        lowest: b,
    }
}
