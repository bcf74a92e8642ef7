// The state's bytes: whether the rules can have left them, and how they change.
ghost use Rattle.std.specs.Prelude.{◌≡◌, ◌≤◌, ◌<◌, IfSome, option_copied, length};
ghost use Rattle.transport.specs.Packet.{packet_length};
ghost use Rattle.transport.specs.Feed.{is_head};
ghost use Rattle.transport.specs.State.{hand_at, held_in, state_good};
ghost use Rattle.transport.specs.Pieces.{with_last, midway};

use crate::packet::judge_packet;
use crate::{PACKET_LENGTH, STATE_LENGTH};

// Where the number of bytes in hand stands, and where they begin.
const HELD_AT: usize = 188;

pub const HAND_AT: usize = 190;

// The most bytes that can be in hand: a section has at most 4,098.
const MOST_IN_HAND: usize = 4097;

pub fn is_good(pid: u16, state: &[u8]) -> bool
    ensures { result ≡ state_good pid state.now }
{
    if state.len() < STATE_LENGTH {
        return false;
    }
    if state[0] == 0 {
        return wire::is_equal(&state[..HAND_AT], &[0; HAND_AT]);
    }
    if judge_packet(pid, &state[..PACKET_LENGTH]).is_err() {
        return false;
    }
    let held = held_in(state);
    if MOST_IN_HAND < held {
        return false;
    }
    let end = HAND_AT + held;
    is_head(&state[HAND_AT..end])
}

// How many bytes are in hand.
pub fn held_in(state: &[u8]) -> usize
    ensures { (result ≡ held_in state.now) × (result < 65536) }
{
    wire::sixteen_at(state, HELD_AT) as usize
}

// Nothing, or the beginning of a section that is not whole.
fn is_head(hand: &[u8]) -> bool
    ensures { result ≡ is_head hand.now }
{
    if hand.len() == 0 {
        return true;
    }
    if hand[0] == section::STUFFING {
        return false;
    }
    section::whole_at(hand).is_none()
}

// What is still to be written after a stretch: the last of its packets that was taken, if one was, with so many bytes in hand.
pub fn keep_last(last: Option<&[u8]>, held: usize, state: &mut [u8])
    requires { IfSome (option_copied last) (λ l. length l ≡ packet_length) × (held < 65536) × (hand_at ≤ length state.old) }
    ensures { state.new ≡ midway (option_copied last.entry) held state.old }
{
    if let Some(l) = last {
        keep(state, l, held);
    }
}

// The packet becomes the last, with so many bytes in hand.
fn keep(state: &mut [u8], p: &[u8], held: usize)
    requires { (length p.now ≡ packet_length) × (held < 65536) × (hand_at ≤ length state.old) }
    ensures { state.new ≡ with_last p.now held state.old }
{
    wire::copy_at(state, 0, p);
    state[188] = (held / 256) as u8;
    state[189] = (held % 256) as u8;
}
