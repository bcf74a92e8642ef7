// The receiver straight from transport packets: those of one PID become sections, and the sections go to the run (02, §2).
//
// What the call answers is defined in specs/Heard.antt. That the record and the image after it are those of the sections
// handed on, so that demand 3 speaks of these, is in crate `demands`, Transport.antt.
#![tactic(auto)]

ghost use Rattle.std.specs.Prelude.{◌≡◌, length};
ghost use Rattle.transport_run.specs.Heard.{heard_answer, heard_state, heard_out, heard_image};

use carousel_record::Carousel;
use transport::Gathered;

// What came of the packets, or why none was passed, beside the record after the sections that they handed on.
#[derive(Clone, Copy)]
pub struct Heard {
    pub gathered: Result<Gathered, u8>,
    pub state: Carousel,
}

// Packets laid end to end, as many as `out` has room for (transport::gather), and the run over the sections that they hand on. A
// record that breaks its rule is refused with 1, before a packet is passed: so no section is lost.
pub fn run_packets(
    c: Carousel,
    pid: u16,
    packets: &[u8],
    state: &mut [u8],
    out: &mut [u8],
    image: &mut [u8],
) -> Heard
    ensures { (result ≡ heard_answer c pid packets.now state.old (length out.old) image.old)
        × (state.new ≡ heard_state c pid packets.now state.old (length out.old))
        × (out.new ≡ heard_out c pid packets.now state.old out.old)
        × (image.new ≡ heard_image c pid packets.now state.old (length out.old) image.old) }
{
    if !carousel_record::is_ruled(c) {
        return Heard {
            gathered: Err(1),
            state: c,
        };
    }
    let gathered = transport::gather(pid, packets, state, out);
    let size = match gathered {
        Ok(g) => g.size,
        Err(_) => 0,
    };
    let ran = receiver::run(c, &out[..size], image, usize::MAX);
    Heard {
        gathered,
        state: ran.state,
    }
}
