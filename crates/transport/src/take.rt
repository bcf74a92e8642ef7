// One packet, for a state that the rules can have left and a buffer that has room for what it may hand on.
ghost use Rattle.std.specs.Prelude.{◌≡◌, true, false, List, ℕ, ◌+◌, ◌≤◌, option_copied, length, take, drop};
ghost use Rattle.wire.specs.Items.{items, joined};
ghost use Rattle.wire.specs.Pieces.{laid_first};
ghost use Rattle.section.specs.Whole.{whole_at};
ghost use Rattle.transport.specs.Packet.{packet_length, is_faulty, view_of};
ghost use Rattle.transport.specs.Feed.{is_head, hands_on, leaves, ended, grown, head_in};
ghost use Rattle.transport.specs.State.{most_in_hand, hand_at, state_length, state_bytes};
ghost use Rattle.transport.specs.Calls.{most_handed};
ghost use Rattle.transport.specs.Pieces.{with_last, midway, Midway, Stepped};

use crate::Answer;
use crate::hand::{hand_on, whole_in};
use crate::judge::{is_taken, judge, kept};
use crate::packet::{Parts, parts_of};
use crate::plain::goes_on;
use crate::state::HAND_AT;

// What a packet came to: its answer, how many bytes it handed on, and how many are in hand after it.
#[derive(Clone, Copy)]
pub struct Step {
    pub answer: Result<Answer, u8>,
    pub size: usize,
    pub held: usize,
}

// What a payload came to.
#[derive(Clone, Copy)]
pub struct Brought {
    pub size: usize,
    pub held: usize,
}

// One packet of many. That it is now the last, and how much is in hand, is not written to the state: whoever goes through them does so
// after the last of them.
pub fn take_packet(
    pid: u16,
    last: Option<&[u8]>,
    held: usize,
    p: &[u8],
    state: &mut [u8],
    out: &mut [u8],
) -> Step
    requires { Midway pid (option_copied last) held state.old × (most_handed ≤ length out.old) }
    ensures { Stepped pid (midway (option_copied last.entry) held state.old) state.old held p.now out.old
        result.answer result.size result.held state.new out.new }
{
    if goes_on(pid, last, held, p, state) {
        wire::copy_at(state, HAND_AT + held, &p[4..]);
        return Step {
            answer: Ok(Answer::Taken),
            size: 0,
            held: held + 184,
        };
    }
    let answer = judge(pid, last, state, p);
    if !is_taken(answer) {
        return Step {
            answer,
            size: 0,
            held,
        };
    }
    let b = take_payload(p, kept(answer, held), state, out);
    Step {
        answer,
        size: b.size,
        held: b.held,
    }
}

// What a packet brings, with `held` bytes in hand: whole sections go to the buffer, the head of the next stays in hand.
fn take_payload(p: &[u8], held: usize, state: &mut [u8], out: &mut [u8]) -> Brought
    requires { (length p.now ≡ packet_length) × (is_faulty p.now ≡ false) × (held ≤ most_in_hand) × (state_length ≤ length state.old)
        × (is_head (take held (drop hand_at state.old)) ≡ true) × (most_handed ≤ length out.old) }
    ensures { (result.size ≡ length (joined (hands_on (take held (drop hand_at state.old)) (view_of p.now))))
        × (result.held ≡ length (leaves (take held (drop hand_at state.old)) (view_of p.now)))
        × (with_last p.now result.held state.new ≡ laid_first (state_bytes (record {
          last = p.now;
          hand = leaves (take held (drop hand_at state.old)) (view_of p.now);
        })) state.old)
        × (out.new ≡ laid_first (joined (hands_on (take held (drop hand_at state.old)) (view_of p.now))) out.old) }
{
    let Some(v) = parts_of(p) else {
        return Brought { size: 0, held };
    };
    let Parts { start, from, mid } = v;
    let end = HAND_AT + held;
    let n = hand_on(&state[HAND_AT..end], &p[from..mid], out);
    if start {
        let b = begin(&p[mid..], state, &mut out[n..]);
        return Brought {
            size: n + b.size,
            held: b.held,
        };
    }
    Brought {
        size: n,
        held: go_on(&p[from..mid], held, n, state),
    }
}

// What begins in a packet: whole sections, and a head that stays in hand unless stuffing stands there.
fn begin(after: &[u8], state: &mut [u8], out: &mut [u8]) -> Brought
    requires { (length after.now ≤ packet_length) × (state_length ≤ length state.old) × (length after.now ≤ length out.old) }
    ensures { (result.size ≡ length (joined (items whole_at after.now)))
        × (result.held ≡ length (head_in after.now))
        × ((p : List ℕ) → length p ≡ packet_length → with_last p result.held state.new
        ≡ laid_first (state_bytes (record { last = p; hand = head_in after.now })) state.old)
        × (out.new ≡ laid_first (joined (items whole_at after.now)) out.old) }
{
    let n = whole_in(after);
    wire::copy_at(out, 0, &after[..n]);
    let left = &after[n..];
    if wire::byte_at(left, 0) == section::STUFFING {
        return Brought { size: n, held: 0 };
    }
    wire::copy_at(state, HAND_AT, left);
    Brought {
        size: n,
        held: left.len(),
    }
}

// A packet without unit start, when n bytes were handed on: its bytes go on with the section in hand, if there is one that is not whole yet.
fn go_on(before: &[u8], held: usize, n: usize, state: &mut [u8]) -> usize
    requires { (state_length ≤ length state.old) × (held ≤ most_in_hand)
        × (is_head (take held (drop hand_at state.old)) ≡ true) × (length before.now ≤ packet_length)
        × (n ≡ length (joined (ended (take held (drop hand_at state.old)) before.now))) }
    ensures { (result ≡ length (grown (take held (drop hand_at state.old)) before.now))
        × ((p : List ℕ) → length p ≡ packet_length → with_last p result state.new ≡ laid_first
        (state_bytes (record { last = p; hand = grown (take held (drop hand_at state.old)) before.now }))
        state.old) }
{
    if held == 0 {
        return 0;
    }
    if n != 0 {
        return 0;
    }
    wire::copy_at(state, HAND_AT + held, before);
    held + before.len()
}
