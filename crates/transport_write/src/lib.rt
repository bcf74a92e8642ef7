// From sections to transport packets (ISO/IEC 13818-1; 02, §2): the packets of one section.
//
// Its packets are defined in specs/Writer.antt, and so is what the call answers. That they are handed
// on as they are is in crate `transport_loss`.
#![tactic(auto)]

mod put;

ghost use Rattle.std.specs.Prelude.{◌≡◌, ◌+◌, ◌/◌, length};
ghost use Rattle.wire.specs.Outcomes.{passed};
ghost use Rattle.transport_write.specs.Writer.{pack_refusal, pack_answer, packed_bytes};

use put::put_section;

// The bytes of a packet, and of its payload.
pub const PACKET_LENGTH: usize = 188;

pub const PAYLOAD_LENGTH: usize = 184;

// The most packets that a section can have.
pub const MOST_PACKETS: usize = 23;

// The packets of one section, with the counter of the first. Answers how many were written; or the refusal's number, and nothing is written.
pub fn write_packets(pid: u16, counter: u8, s: &[u8], out: &mut [u8]) -> Result<usize, u8>
    ensures { (result ≡ pack_answer pid counter s.now (length out.old))
        × (out.new ≡ packed_bytes pid counter s.now out.old) }
{
    judge(pid, counter, s, out.len())?;
    Ok(put_section(out, pid, counter, s))
}

// 2 or 3, no section; 21, a short buffer; 25, a PID or a counter that is too wide.
fn judge(pid: u16, counter: u8, s: &[u8], room: usize) -> Result<(), u8>
    ensures { result ≡ passed (pack_refusal pid counter s.now room) }
{
    let n = s.len();
    if n < 3 {
        return Err(2);
    }
    if n != 3 + wire::twelve_at(s, 1) {
        return Err(2);
    }
    if s[0] == section::STUFFING {
        return Err(3);
    }
    if room < PACKET_LENGTH * packets_in(n) {
        return Err(21);
    }
    if 0x1FFF < pid {
        return Err(25);
    }
    if 15 < counter {
        return Err(25);
    }
    Ok(())
}

// How many packets a section of n bytes and its pointer fill.
fn packets_in(n: usize) -> usize
    ensures { result ≡ n / 184 + 1 }
{
    n / PAYLOAD_LENGTH + 1
}
