// Numbers, the two headers and the CRC, put at a place: each answers the place after it.
ghost use Rattle.std.specs.Prelude.{◌≡◌, ◌+◌, ◌≤◌, ◌<◌, length, take};
ghost use Rattle.std.proofs.lemmas.List.Edits.{sets};
ghost use Rattle.wire.specs.Fields.{spelled};
ghost use Rattle.text.specs.Text.{reached};
ghost use Rattle.section.specs.Crc.{crc_of};
ghost use Rattle.carousel_play.specs.Pieces.{head_bytes, message_head};

// What stands in the two headers.
#[derive(Clone, Copy)]
pub struct Head {
    pub table: u8,
    pub extension: u16,
    pub version: u8,
    pub number: u8,
    pub last: u8,
    pub message: u16,
    pub identifier: u32,
}

pub fn put_sixteen(out: &mut [u8], at: usize, x: u16) -> usize
    ensures { (out.new ≡ sets out.old at (spelled 2 x)) × (result ≡ reached at (length (spelled 2 x)) (length out.old)) }
{
    text::put(out, at, &x.to_be_bytes())
}

pub fn put_thirty_two(out: &mut [u8], at: usize, x: u32) -> usize
    ensures { (out.new ≡ sets out.old at (spelled 4 x)) × (result ≡ reached at (length (spelled 4 x)) (length out.old)) }
{
    text::put(out, at, &x.to_be_bytes())
}

// The header of a section whose body has `size` bytes, at the start.
pub fn put_head(out: &mut [u8], h: Head, size: usize) -> usize
    requires { (h.version < 32) × (size ≤ 4084) }
    ensures { (out.new ≡ sets out.old 0 (head_bytes h size)) × (result ≡ reached 0 (length (head_bytes h size)) (length out.old)) }
{
    let mut end = text::put(out, 0, &[h.table]);
    end = put_sixteen(out, end, 0xB000 + (9 + size as u16));
    end = put_sixteen(out, end, h.extension);
    text::put(out, end, &[0xC1 + 2 * h.version, h.number, h.last])
}

// The head of a message whose payload has `size` bytes.
pub fn put_message(out: &mut [u8], at: usize, h: Head, size: usize) -> usize
    requires { size ≤ 4084 }
    ensures { (out.new ≡ sets out.old at (message_head h size)) × (result ≡ reached at (length (message_head h size)) (length out.old)) }
{
    let mut end = text::put(out, at, &[0x11, 0x03]);
    end = put_sixteen(out, end, h.message);
    end = put_thirty_two(out, end, h.identifier);
    end = text::put(out, end, &[0xFF, 0]);
    put_sixteen(out, end, size as u16)
}

// The CRC of the first `size` bytes, after them.
pub fn put_crc(out: &mut [u8], size: usize) -> usize
    requires { size + 4 ≤ length out.old }
    ensures { (out.new ≡ sets out.old size (spelled 4 (crc_of (take size out.old)))) × (result ≡ size + 4) }
{
    let crc = section::crc(&out[0..size]);
    put_thirty_two(out, size, crc)
}
