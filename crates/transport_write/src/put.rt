// The packets of one section.
ghost use Rattle.std.specs.Prelude.{◌≡◌, ◌∷◌, ◌+◌, ◌*◌, ◌≤◌, ◌<◌, length};
ghost use Rattle.wire.specs.Copies.{overwrite};
ghost use Rattle.wire.specs.Items.{joined};
ghost use Rattle.wire.specs.Pieces.{cut, laid_first};
ghost use Rattle.transport_write.specs.Writer.{payload_length, packet_of, packets_over, section_packets};

use crate::{PACKET_LENGTH, PAYLOAD_LENGTH};

// The largest section, and the pointer before it.
const LARGEST_UNIT: usize = 4099;

// Writes them, and answers how many there are.
pub fn put_section(out: &mut [u8], pid: u16, counter: u8, s: &[u8]) -> usize
    requires { (length s.now < 4099) × (counter < 16) × (pid < 8192) × (length (joined (section_packets pid counter s.now)) ≤ length out.old) }
    ensures { (result ≡ length (section_packets pid counter s.now))
        × (out.new ≡ laid_first (joined (section_packets pid counter s.now)) out.old) }
{
    let mut unit = [0u8; LARGEST_UNIT];
    wire::copy_at(&mut unit, 1, s);
    let end = 1 + s.len();
    put_unit(out, pid, counter, &unit[..end])
}

// A pointer and a section, cut into payloads.
fn put_unit(out: &mut [u8], pid: u16, counter: u8, unit: &[u8]) -> usize
    requires { (counter < 16) × (pid < 8192) × (length (joined (packets_over pid 1 counter (cut payload_length unit.now))) ≤ length out.old) }
    ensures { (result ≡ length (packets_over pid 1 counter (cut payload_length unit.now)))
        × (out.new ≡ laid_first (joined (packets_over pid 1 counter (cut payload_length unit.now))) out.old) }
{
    let mut written: usize = 0;
    let mut start: u8 = 1;
    let mut c = counter;
    for bytes in unit.chunks(PAYLOAD_LENGTH) {
        put_packet(out, PACKET_LENGTH * written, pid, start, c, bytes);
        start = 0;
        c = (c + 1) % 16;
        written += 1;
    }
    written
}

// One packet, from a place on.
fn put_packet(out: &mut [u8], at: usize, pid: u16, start: u8, counter: u8, bytes: &[u8])
    requires { (counter < 16) × (pid < 8192) × (start < 2) × (length bytes.now ≤ payload_length) × (at + 188 ≤ length out.old) }
    ensures { out.new ≡ overwrite out.old at (packet_of pid start counter bytes.now) }
{
    let mut packet = [section::STUFFING; PACKET_LENGTH];
    packet[0] = 0x47;
    packet[1] = 64 * start + (pid / 256) as u8;
    packet[2] = (pid % 256) as u8;
    packet[3] = 16 + counter;
    wire::copy_at(&mut packet, 4, bytes);
    wire::copy_at(out, at, &packet);
}
