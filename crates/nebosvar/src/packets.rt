// The answers about transport packets as structs of numbers.
ghost use Rattle.std.specs.Prelude.{◌≡◌};
ghost use Rattle.nebosvar.specs.Packets.{number_of_packet, kind_of_packet, fed_out, gathered_out, packed_out};

use crate::{FedOut, GatheredOut, PackedOut};
use transport::{Answer, Gathered, Handed};

pub fn fed_out(h: Handed) -> FedOut
    ensures { result ≡ fed_out h }
{
    let answer = h.answer;
    FedOut {
        size: h.size,
        refusal: answer_number(answer),
        kind: kind_number(answer),
    }
}

pub fn gathered_out(a: Result<Gathered, u8>) -> GatheredOut
    ensures { result ≡ gathered_out a }
{
    match a {
        Ok(g) => {
            let counts = g.counts;
            GatheredOut {
                passed: g.passed,
                size: g.size,
                taken: counts.taken,
                repeated: counts.repeated,
                broken: counts.broken,
                refused40: counts.refused40,
                refused41: counts.refused41,
                refused42: counts.refused42,
                refused43: counts.refused43,
                refusal: 0,
            }
        }
        Err(n) => GatheredOut {
            passed: 0,
            size: 0,
            taken: 0,
            repeated: 0,
            broken: 0,
            refused40: 0,
            refused41: 0,
            refused42: 0,
            refused43: 0,
            refusal: n,
        },
    }
}

pub fn packed_out(a: Result<usize, u8>) -> PackedOut
    ensures { result ≡ packed_out a }
{
    match a {
        Ok(packets) => PackedOut {
            packets,
            refusal: 0,
        },
        Err(n) => PackedOut {
            packets: 0,
            refusal: n,
        },
    }
}

// The paper's number of what became of a packet; 0 where it was not refused.
fn answer_number(a: Result<Answer, u8>) -> u8
    ensures { result ≡ number_of_packet a }
{
    match a {
        Ok(_) => 0,
        Err(n) => n,
    }
}

// Its kind, as a number.
fn kind_number(a: Result<Answer, u8>) -> u8
    ensures { result ≡ kind_of_packet a }
{
    match a {
        Err(_) => 0,
        Ok(Answer::Taken) => 1,
        Ok(Answer::Broken) => 2,
        Ok(Answer::Repeated) => 3,
    }
}
