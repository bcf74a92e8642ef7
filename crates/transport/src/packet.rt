// One packet: why it is refused, and where its bytes lie.
ghost use Rattle.std.specs.Prelude.{◌≡◌, false, not, ◌&&◌, ◌-◌, ◌≤◌, ◌<◌, is_some, IfSome, leb, length, take, drop};
ghost use Rattle.wire.specs.Fields.{byte_at};
ghost use Rattle.wire.specs.Outcomes.{passed};
ghost use Rattle.transport.specs.Packet.{packet_length, has_field, has_payload, counter_of, payload_at, is_start, is_faulty, packet_refusal, view_of};

use crate::PACKET_LENGTH;

// Where the bytes of a payload lie: those from `from` to `mid` go on with the section in hand, those from `mid` on begin sections.
#[derive(Clone, Copy)]
pub struct Parts {
    pub start: bool,
    pub from: usize,
    pub mid: usize,
}

// The number that refuses it, if one does.
#[tactic(auto, using(crate::proofs::Laws::Packets::refusals))]
pub fn judge_packet(pid: u16, p: &[u8]) -> Result<(), u8>
    ensures { result ≡ passed (packet_refusal pid p.now) }
{
    if p.len() != PACKET_LENGTH {
        return Err(40);
    }
    if p[0] != 0x47 {
        return Err(41);
    }
    if wire::sixteen_at(p, 1) % 8192 != pid {
        return Err(42);
    }
    if is_faulty(p) {
        return Err(43);
    }
    Ok(())
}

fn is_faulty(p: &[u8]) -> bool
    requires { length p.now ≡ packet_length }
    ensures { result ≡ is_faulty p.now }
{
    // transport error
    if p[1] / 128 % 2 == 1 {
        return true;
    }
    // scrambling control
    if p[3] / 64 % 4 != 0 {
        return true;
    }
    // adaptation control 00
    if is_bare(p) {
        return true;
    }
    let at = payload_at(p);
    if p.len() < at {
        return true;
    }
    if !is_start(p) {
        return false;
    }
    is_pointer_past(&p[at..])
}

// Neither field nor payload.
fn is_bare(p: &[u8]) -> bool
    ensures { result ≡ (not (has_field p.now) && not (has_payload p.now)) }
{
    if has_field(p) {
        return false;
    }
    !has_payload(p)
}

// Whether the pointer field passes over more bytes than follow it.
fn is_pointer_past(payload: &[u8]) -> bool
    ensures { result ≡ leb (length payload.now) (byte_at payload.now 0) }
{
    payload.len() <= wire::eight_at(payload, 0)
}

// The byte after the adaptation field.
fn payload_at(p: &[u8]) -> usize
    ensures { result ≡ payload_at p.now }
{
    if !has_field(p) {
        return 4;
    }
    5 + wire::eight_at(p, 4)
}

fn has_field(p: &[u8]) -> bool
    ensures { result ≡ has_field p.now }
{
    wire::byte_at(p, 3) / 32 % 2 == 1
}

pub fn has_payload(p: &[u8]) -> bool
    ensures { result ≡ has_payload p.now }
{
    wire::byte_at(p, 3) / 16 % 2 == 1
}

// Whether a section begins in its payload.
fn is_start(p: &[u8]) -> bool
    ensures { result ≡ is_start p.now }
{
    if !has_payload(p) {
        return false;
    }
    wire::byte_at(p, 1) / 64 % 2 == 1
}

pub fn counter(p: &[u8]) -> u8
    ensures { (result ≡ counter_of p.now) × (result < 16) }
{
    wire::byte_at(p, 3) % 16
}

// Where the payload of a packet that is not refused lies, if it has one.
pub fn parts_of(p: &[u8]) -> Option<Parts>
    requires { (length p.now ≡ packet_length) × (is_faulty p.now ≡ false) }
    ensures { (is_some result ≡ (view_of p.now).payload)
        × IfSome result (λ v. (v.start ≡ (view_of p.now).start) × (v.from ≤ v.mid) × (v.mid ≤ length p.now)
        × (take (v.mid - v.from) (drop v.from p.now) ≡ (view_of p.now).before)
        × (drop v.mid p.now ≡ (view_of p.now).after)) }
{
    if !has_payload(p) {
        return None;
    }
    let at = payload_at(p);
    if !is_start(p) {
        return Some(Parts {
            start: false,
            from: at,
            mid: p.len(),
        });
    }
    let from = at + 1;
    Some(Parts {
        start: true,
        from,
        mid: from + wire::eight_at(p, at),
    })
}
