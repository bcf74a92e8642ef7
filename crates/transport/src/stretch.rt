// Through a stretch, packet by packet.
ghost use Rattle.std.specs.Prelude.{◌≡◌, option_copied, length};
ghost use Rattle.transport.specs.Calls.{lent_refusal, gathered_of, gather_state, gather_out};
ghost use Rattle.transport.specs.Pieces.{midway, Midway};

use crate::judge::is_taken;
use crate::state::{held_in, keep_last};
use crate::take::take_packet;
use crate::{Counts, Gathered, LEAST_ROOM, PACKET_LENGTH};

// What came of it, which of its packets is now the last (none: still the one in the state), and how many bytes are in hand.
#[derive(Clone, Copy)]
struct Walked<'a> {
    gathered: Gathered,
    last: Option<&'a [u8]>,
    held: usize,
}

// The packets of a stretch, one by one, with a state and a buffer that are not refused.
pub fn pass(pid: u16, packets: &[u8], state: &mut [u8], out: &mut [u8]) -> Gathered
    requires { lent_refusal pid state.old (length out.old) ≡ 0 }
    ensures { (result ≡ gathered_of pid state.old (length out.old) packets.now)
        × (state.new ≡ gather_state pid state.old (length out.old) packets.now)
        × (out.new ≡ gather_out pid state.old packets.now out.old) }
{
    let w = walk(pid, packets, state, out);
    keep_last(w.last, w.held, state);
    w.gathered
}

// All of it but what `keep_last` writes.
fn walk<'a>(pid: u16, packets: &'a [u8], state: &mut [u8], out: &mut [u8]) -> Walked<'a>
    requires { lent_refusal pid state.old (length out.old) ≡ 0 }
    ensures { (result.gathered ≡ gathered_of pid state.old (length out.old) packets.now)
        × (midway (option_copied result.last) result.held state.new
        ≡ gather_state pid state.old (length out.old) packets.now)
        × Midway pid (option_copied result.last) result.held state.new
        × (out.new ≡ gather_out pid state.old packets.now out.old) }
{
    let mut counts = Counts::default();
    let mut passed: usize = 0;
    let mut size: usize = 0;
    let mut last: Option<&[u8]> = None;
    let mut held = held_in(state);
    for p in packets.chunks(PACKET_LENGTH) {
        if out.len() - size < LEAST_ROOM {
            break;
        }
        let step = take_packet(pid, last, held, p, state, &mut out[size..]);
        counts.add(step.answer);
        if is_taken(step.answer) {
            last = Some(p);
        }
        held = step.held;
        size += step.size;
        passed += p.len();
    }
    let gathered = Gathered {
        passed,
        size,
        counts,
    };
    Walked {
        gathered,
        last,
        held,
    }
}
