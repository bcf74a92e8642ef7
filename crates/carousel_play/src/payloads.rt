// The two payloads, put at a place: each answers the place after it.
ghost use Rattle.std.specs.Prelude.{◌≡◌, ◌≤◌, length};
ghost use Rattle.std.proofs.lemmas.List.Edits.{sets};
ghost use Rattle.text.specs.Text.{reached};
ghost use Rattle.carousel_messages.specs.Limits.{most_modules};
ghost use Rattle.carousel_play.specs.Bytes.{module_bytes, modules_bytes, list_bytes, carried_bytes};
ghost use Rattle.carousel_play.specs.Calls.{to_play};

use crate::Playlist;
use crate::spell::{put_sixteen, put_thirty_two};
use carousel_messages::Listed;

// An announcement's.
pub fn put_list(out: &mut [u8], at: usize, p: Playlist) -> usize
    requires { p.count ≤ most_modules }
    ensures { (out.new ≡ sets out.old at (list_bytes (to_play p))) × (result ≡ reached at (length (list_bytes (to_play p))) (length out.old)) }
{
    let ms = p.modules;
    let mut end = put_thirty_two(out, at, p.download);
    end = put_sixteen(out, end, p.block_size);
    // the ten unread bytes, and that there are no compatibility bytes
    end = text::put(out, end, &[0; 12]);
    end = put_sixteen(out, end, p.count);
    end = put_modules(out, end, &ms[..p.count as usize]);
    // no private bytes
    put_sixteen(out, end, 0)
}

// Some modules.
fn put_modules(out: &mut [u8], at: usize, modules: &[Listed]) -> usize
    ensures { (out.new ≡ sets out.old at (modules_bytes modules.now))
        × (result ≡ reached at (length (modules_bytes modules.now)) (length out.old)) }
{
    let mut end = at;
    for m in modules {
        end = put_module(out, end, *m);
    }
    end
}

fn put_module(out: &mut [u8], at: usize, m: Listed) -> usize
    ensures { (out.new ≡ sets out.old at (module_bytes m)) × (result ≡ reached at (length (module_bytes m)) (length out.old)) }
{
    let mut end = put_sixteen(out, at, m.number);
    end = put_thirty_two(out, end, m.size);
    text::put(out, end, &[m.version, 0])
}

// A block's, of a module.
pub fn put_carried(out: &mut [u8], at: usize, m: Listed, block: u16, bytes: &[u8]) -> usize
    ensures { (out.new ≡ sets out.old at (carried_bytes m.number m.version block bytes.now))
        × (result ≡ reached at (length (carried_bytes m.number m.version block bytes.now)) (length out.old)) }
{
    let mut end = put_sixteen(out, at, m.number);
    end = text::put(out, end, &[m.version, 0xFF]);
    end = put_sixteen(out, end, block);
    text::put(out, end, bytes)
}
