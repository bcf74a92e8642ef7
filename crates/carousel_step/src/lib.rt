// What a section does to a carousel record and an image.
//
// The record, its rule and the ways in which it changes are crate `carousel_record`. Refusals 12 to 17 and the step are in specs/Step.antt. No
// call trusts the record: one that breaks its rule is refused with 1.
#![tactic(auto)]

mod announce;
mod keep;
mod store;

ghost use Rattle.std.specs.Prelude.{◌≡◌};
ghost use Rattle.wire.specs.Tests.{first_met};
ghost use Rattle.carousel_step.specs.Step.{stepped_of, image_of, number_of_answer, step_tests};

use announce::take_announcement;
use carousel_messages::Message;
use carousel_record::{Carousel, head_of, is_ruled, slot_of};
use section::Refusal;
use store::refuse;
pub use store::take_block;

#[derive(Clone, Copy)]
pub enum Answer {
    New,
    Same,
    Stored,
    Repeated,
}

// A step's answer, beside the record after it: an enum may hold no array.
#[derive(Clone, Copy)]
pub struct Stepped {
    pub answer: Result<Answer, Refusal>,
    pub state: Carousel,
}

// One section: its answer, the record after it, and the image changed where a block was stored.
pub fn step(c: Carousel, s: &[u8], image: &mut [u8]) -> Stepped
    ensures { (result ≡ stepped_of c s.now image.old)
        × (image.new ≡ image_of c s.now image.old)
        × (number_of_answer result.answer ≡ first_met (step_tests c s.now image.old)) }
{
    if !is_ruled(c) {
        return Stepped {
            answer: refuse(1),
            state: c,
        };
    }
    let judged = carousel_messages::judge_by(s, crc_tables::crc_of(s));
    match judged {
        Err(r) => Stepped {
            answer: Err(r),
            state: c,
        },
        Ok(Message::Announced(a)) => {
            let at = a.part.start;
            let e = at + a.part.size;
            take_announcement(c, a, &s[at..e])
        }
        Ok(Message::Carried(b)) => {
            let at = b.part.start;
            let e = at + b.part.size;
            let h = head_of(c);
            let slot = slot_of(c, b.number);
            let mut marks = c.marks;
            let answer = take_block(h, slot, b, &s[at..e], &mut marks, image);
            let mut next = c;
            next.marks = marks;
            Stepped {
                answer: answer,
                state: next,
            }
        }
    }
}

// The wheelhouse loop's entry: the record is lent, and changed in place. Thin, over the step by value.
pub fn step_in(c: &mut Carousel, s: &[u8], image: &mut [u8]) -> Result<Answer, Refusal>
    ensures { (result ≡ (stepped_of c.old s.now image.old).answer)
        × (c.new ≡ (stepped_of c.old s.now image.old).state)
        × (image.new ≡ image_of c.old s.now image.old)
        × (number_of_answer result ≡ first_met (step_tests c.old s.now image.old)) }
{
    let st = step(*c, s, image);
    *c = st.state;
    st.answer
}
