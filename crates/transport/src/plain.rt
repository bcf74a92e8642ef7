// Packets that do nothing but go on with the section in hand. Long sections are made of these, and this is the quick way for them.
ghost use Rattle.std.specs.Prelude.{◌≡◌, true, ◌+◌, ◌≤◌, ◌<◌, IsSomeAnd, option_copied, length, take, drop};
ghost use Rattle.section.specs.Whole.{said_length};
ghost use Rattle.transport.specs.State.{hand_at};
ghost use Rattle.transport.specs.Pieces.{Plain};

use crate::PACKET_LENGTH;
use crate::packet::counter;
use crate::state::HAND_AT;

// Whether a packet is one of these, by the last one, if that is known.
pub fn goes_on(pid: u16, last: Option<&[u8]>, held: usize, p: &[u8], state: &[u8]) -> bool
    requires { hand_at + held ≤ length state.now }
    ensures { result ≡ true → IsSomeAnd (option_copied last.entry)
        (λ l. Plain pid l (take held (drop hand_at state.now)) p.now) }
{
    let Some(l) = last else {
        return false;
    };
    let until = HAND_AT + held;
    is_plain(pid, l, &state[HAND_AT..until], p)
}

fn is_plain(pid: u16, last: &[u8], hand: &[u8], p: &[u8]) -> bool
    ensures { result ≡ true → Plain pid last.now hand.now p.now }
{
    if p.len() != PACKET_LENGTH {
        return false;
    }
    if p[0] != 0x47 {
        return false;
    }
    // neither error nor unit start
    if 8192 <= pid {
        return false;
    }
    if wire::sixteen_at(p, 1) != pid {
        return false;
    }
    // payload and nothing else, and the next counter
    if p[3] != 16 + (counter(last) + 1) % 16 {
        return false;
    }
    is_lacking(hand)
}

// Whether the section in hand says its length, and is not whole with 184 bytes more.
fn is_lacking(hand: &[u8]) -> bool
    ensures { result ≡ true → (3 ≤ length hand.now) × (length hand.now + 184 < said_length hand.now) }
{
    if hand.len() < 3 {
        return false;
    }
    let n = wire::twelve_at(hand, 1);
    if n < 181 {
        return false;
    }
    hand.len() < n - 181
}
