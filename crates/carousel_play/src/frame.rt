// The section around a payload.
ghost use Rattle.std.specs.Prelude.{◌≡◌, ◌+◌, ◌≤◌, ◌<◌, length, take, drop};
ghost use Rattle.std.proofs.lemmas.List.Edits.{sets};
ghost use Rattle.carousel_play.specs.Pieces.{framed_by};

use crate::spell::{Head, put_crc, put_head, put_message};

// Makes a section of the payload of `size` bytes that stands from byte 20 on: the headers go before it, the CRC after it.
pub fn put_frame(out: &mut [u8], h: Head, size: usize) -> usize
    requires { (h.version < 32) × (size ≤ 4072) × (24 + size ≤ length out.old) }
    ensures { (out.new ≡ sets out.old 0 (framed_by h (take size (drop 20 out.old)))) × (result ≡ 24 + size) }
{
    let end = put_head(out, h, 12 + size);
    put_message(out, end, h, size);
    put_crc(out, 20 + size)
}
