// The refusals that need no look at the place or the buffer.
ghost use Rattle.std.specs.Prelude.{◌≡◌};
ghost use Rattle.wire.specs.Outcomes.{passed};
ghost use Rattle.carousel_play.specs.Calls.{limit_refusal};
ghost use Rattle.carousel_play.specs.Pieces.{refusal_before};

use crate::Playlist;
use carousel_messages::{MOST_MODULES, has_twice, is_beyond, total};

// 10 or 11.
pub fn judge_limits(p: Playlist) -> Result<(), u8>
    ensures { result ≡ passed (limit_refusal p) }
{
    let n = p.count as usize;
    if MOST_MODULES < n {
        return Err(10);
    }
    let ms = p.modules;
    let modules = &ms[..n];
    if is_beyond(p.block_size, modules) {
        return Err(10);
    }
    if has_twice(modules) {
        return Err(11);
    }
    Ok(())
}

// 10, 11 or 15. The image has `length` bytes.
pub fn judge_before(p: Playlist, length: usize) -> Result<(), u8>
    ensures { result ≡ passed (refusal_before p length) }
{
    judge_limits(p)?;
    let ms = p.modules;
    if length < total(ms, p.count as usize) {
        return Err(15);
    }
    Ok(())
}
