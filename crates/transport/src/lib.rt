// Transport packets (ISO/IEC 13818-1): those of one PID become whole sections (02, §2).
//
// A packet is defined in specs/Packet.antt, what a receiver makes of packets in specs/Feed.antt, its
// state as lent bytes in specs/State.antt, what the calls answer in specs/Calls.antt. What is promised
// of losses is in crate `transport_loss`; the other way, from sections to packets, is `transport_write`.
//
// The state holds the last packet and the section in hand. It is lent as bytes, so that no call has to
// copy it: zeros at first, then carried from call to call. No call trusts it.
#![tactic(auto)]

mod hand;
mod judge;
mod packet;
mod plain;
mod state;
mod stretch;
mod take;
mod tally;

ghost use Rattle.std.specs.Prelude.{◌≡◌, length};
ghost use Rattle.wire.specs.Outcomes.{passed};
ghost use Rattle.transport.specs.Calls.{lent_refusal, feed_answer, feed_state, feed_out, gather_answer, gather_state, gather_out};

use state::is_good;
use stretch::pass;
use tally::counted_as;

// The bytes of a packet.
pub const PACKET_LENGTH: usize = 188;

// The bytes of a state: the last packet, how many bytes are in hand, and room for the most that can be.
pub const STATE_LENGTH: usize = 4287;

// The most that one packet can hand on: 4,097 bytes that were in hand, and 184 that it brings.
pub const LEAST_ROOM: usize = 4281;

// What became of a packet. A broken one was taken too: its counter was out of step.
#[derive(Clone, Copy)]
pub enum Answer {
    Taken,
    Broken,
    Repeated,
}

// An answer, or the number of a refusal, beside the bytes of whole sections at the buffer's start.
#[derive(Clone, Copy)]
pub struct Handed {
    pub answer: Result<Answer, u8>,
    pub size: usize,
}

// How many packets had which answer; broken ones are counted among the taken, too.
#[derive(Clone, Copy, Default)]
pub struct Counts {
    pub taken: usize,
    pub repeated: usize,
    pub broken: usize,
    pub refused40: usize,
    pub refused41: usize,
    pub refused42: usize,
    pub refused43: usize,
}

// What came of a stretch of packets: the bytes that were passed, the bytes of whole sections at the buffer's start, and how many packets had
// which answer.
#[derive(Clone, Copy, Default)]
pub struct Gathered {
    pub passed: usize,
    pub size: usize,
    pub counts: Counts,
}

// One packet: its answer, the state after it, and at the buffer's start the sections that it made whole.
pub fn feed(pid: u16, p: &[u8], state: &mut [u8], out: &mut [u8]) -> Handed
    ensures { (result ≡ feed_answer pid state.old (length out.old) p.now)
        × (state.new ≡ feed_state pid state.old (length out.old) p.now)
        × (out.new ≡ feed_out pid state.old p.now out.old) }
{
    if let Err(n) = judge_lent(pid, state, out.len()) {
        return Handed {
            answer: Err(n),
            size: 0,
        };
    }
    if p.len() != PACKET_LENGTH {
        return Handed {
            answer: Err(40),
            size: 0,
        };
    }
    let g = pass(pid, p, state, out);
    Handed {
        answer: counted_as(g.counts),
        size: g.size,
    }
}

// Many packets, laid end to end, one by one, for as long as the buffer has room for what one more may hand on. Refused with 1 or 21, and then
// nothing was passed.
pub fn gather(pid: u16, packets: &[u8], state: &mut [u8], out: &mut [u8]) -> Result<Gathered, u8>
    ensures { (result ≡ gather_answer pid state.old (length out.old) packets.now)
        × (state.new ≡ gather_state pid state.old (length out.old) packets.now)
        × (out.new ≡ gather_out pid state.old packets.now out.old) }
{
    judge_lent(pid, state, out.len())?;
    Ok(pass(pid, packets, state, out))
}

// 1 a state that the rules can't have left; 21 a buffer of too little room.
fn judge_lent(pid: u16, state: &[u8], room: usize) -> Result<(), u8>
    ensures { result ≡ passed (lent_refusal pid state.now room) }
{
    if !is_good(pid, state) {
        return Err(1);
    }
    if room < LEAST_ROOM {
        return Err(21);
    }
    Ok(())
}
