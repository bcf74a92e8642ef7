// What becomes of a packet, by the last one.
ghost use Rattle.std.specs.Prelude.{◌≡◌, cond, ◌+◌, ◌%◌, ◌≤◌, ◌<◌, IfSome, option_copied, eqb, length};
ghost use Rattle.wire.specs.Copies.{same_numbers};
ghost use Rattle.transport.specs.Packet.{packet_length, packet_refusal, counter_of, view_of};
ghost use Rattle.transport.specs.Feed.{weight};
ghost use Rattle.transport.specs.State.{state_length};
ghost use Rattle.transport.specs.Calls.{is_taken, is_broken};
ghost use Rattle.transport.specs.Pieces.{judged_after, judged, last_seen};

use crate::packet::{counter, has_payload, judge_packet};
use crate::{Answer, PACKET_LENGTH};

// By the last packet, or the one in the state where none is known since.
pub fn judge(pid: u16, last: Option<&[u8]>, state: &[u8], p: &[u8]) -> Result<Answer, u8>
    requires { (state_length ≤ length state.now) × IfSome (option_copied last) (λ l. packet_refusal pid l ≡ 0) }
    ensures { result ≡ judged pid (last_seen (option_copied last.entry) state.now) p.now }
{
    judge_packet(pid, p)?;
    if let Some(l) = last {
        return Ok(judge_after(l, p));
    }
    if state[0] == 0 {
        return Ok(Answer::Taken);
    }
    Ok(judge_after(&state[..PACKET_LENGTH], p))
}

fn judge_after(last: &[u8], p: &[u8]) -> Answer
    requires { length last.now ≡ packet_length }
    ensures { result ≡ judged_after last.now p.now }
{
    if is_repeat(last, p) {
        return Answer::Repeated;
    }
    if is_in_step(last, p) {
        return Answer::Taken;
    }
    Answer::Broken
}

// Whether it is the last packet once more, byte for byte. Most differ in their counters.
fn is_repeat(last: &[u8], p: &[u8]) -> bool
    ensures { result ≡ same_numbers last.now p.now }
{
    wire::byte_at(last, 3) == wire::byte_at(p, 3) && wire::is_equal(last, p)
}

// Whether its counter follows that of the last packet: it turns with each payload.
fn is_in_step(last: &[u8], p: &[u8]) -> bool
    ensures { result ≡ eqb (counter_of p.now) ((counter_of last.now + weight (view_of p.now)) % 16) }
{
    counter(p) == (counter(last) + u8::from(has_payload(p))) % 16
}

// Whether a packet with this answer becomes the last.
pub fn is_taken(a: Result<Answer, u8>) -> bool
    ensures { result ≡ is_taken a }
{
    matches!(a, Ok(Answer::Taken | Answer::Broken))
}

// How much of the section in hand stays: a break drops it.
pub fn kept(a: Result<Answer, u8>, held: usize) -> usize
    ensures { result ≡ cond (is_broken a) 0 held }
{
    match a {
        Ok(Answer::Broken) => 0,
        _ => held,
    }
}
