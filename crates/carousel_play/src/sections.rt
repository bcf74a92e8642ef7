// A whole section, laid at the start of a buffer that has room for it; else 21, and nothing is written.
ghost use Rattle.std.specs.Prelude.{◌≡◌, ◌+◌, ◌-◌, ◌*◌, ◌%◌, ◌≤◌, false, length};
ghost use Rattle.std.proofs.lemmas.List.Edits.{sets};
ghost use Rattle.section.specs.Header.{block_table};
ghost use Rattle.carousel_messages.specs.Limits.{most_modules, beyond10};
ghost use Rattle.carousel_messages.specs.Heard.{sizes_of};
ghost use Rattle.carousel_record.specs.Record.{bytes_of};
ghost use Rattle.carousel_play.specs.Bytes.{section_bytes, message_bytes, carried_bytes, announcement_bytes, block_bytes};
ghost use Rattle.carousel_play.specs.Calls.{to_play};
ghost use Rattle.carousel_play.specs.Pieces.{laid_size, laid_over, StandsIn};

use crate::Playlist;
use crate::frame::put_frame;
use crate::payloads::{put_carried, put_list};
use crate::spell::Head;
use crate::spots::Spot;
use carousel_messages::Listed;
use carousel_record::blocks_of;

// The announcement.
pub fn write_announcement(out: &mut [u8], identifier: u32, p: Playlist) -> Result<usize, u8>
    requires { p.count ≤ most_modules }
    ensures { (result ≡ laid_size (announcement_bytes identifier (to_play p)) (length out.old))
        × (out.new ≡ laid_over (announcement_bytes identifier (to_play p)) out.old) }
{
    if out.len() < 46 + 8 * p.count as usize {
        return Err(21);
    }
    Ok(put_announcement(out, identifier, p))
}

fn put_announcement(out: &mut [u8], identifier: u32, p: Playlist) -> usize
    requires { (p.count ≤ most_modules) × (46 + 8 * p.count ≤ length out.old) }
    ensures { (out.new ≡ sets out.old 0 (announcement_bytes identifier (to_play p))) × (result ≡ 46 + 8 * p.count) }
{
    put_list(out, 20, p);
    let h = Head {
        table: section::ANNOUNCEMENT_TABLE,
        extension: (identifier % 65_536) as u16,
        version: 0,
        number: 0,
        last: 0,
        message: 0x1002,
        identifier,
    };
    put_frame(out, h, 22 + 8 * p.count as usize)
}

// The block at a spot.
pub fn write_block(out: &mut [u8], p: Playlist, image: &[u8], spot: Spot) -> Result<usize, u8>
    requires { (p.count ≤ most_modules) × (beyond10 p.block_size (sizes_of (to_play p).modules) ≡ false) × (bytes_of (to_play p) ≤ length image.now)
        × StandsIn (to_play p) spot }
    ensures { (result ≡ laid_size (block_bytes (to_play p) spot.which spot.block image.now) (length out.old))
        × (out.new ≡ laid_over (block_bytes (to_play p) spot.which spot.block image.now) out.old) }
{
    let ms = p.modules;
    let m = ms[spot.which];
    let bs = p.block_size as usize;
    let before = spot.block * bs;
    let size = bs.min(m.size as usize - before);
    if out.len() < 30 + size {
        return Err(21);
    }
    let from = spot.start + before;
    let end = from + size;
    let last = 255usize.min(blocks_of(p.block_size, m.size) - 1);
    Ok(put_block(
        out,
        p.download,
        m,
        spot.block as u16,
        last as u8,
        &image[from..end],
    ))
}

fn put_block(out: &mut [u8], download: u32, m: Listed, block: u16, last: u8, bytes: &[u8]) -> usize
    requires { (length bytes.now ≤ 4066) × (30 + length bytes.now ≤ length out.old) }
    ensures { (out.new ≡ sets out.old 0 (section_bytes block_table m.number (m.version % 32) (block % 256) last
        (message_bytes 0x1003 download (carried_bytes m.number m.version block bytes.now))))
        × (result ≡ 30 + length bytes.now) }
{
    put_carried(out, 20, m, block, bytes);
    let h = Head {
        table: section::BLOCK_TABLE,
        extension: m.number,
        version: m.version % 32,
        number: (block % 256) as u8,
        last,
        message: 0x1003,
        identifier: download,
    };
    put_frame(out, h, 6 + bytes.len())
}
