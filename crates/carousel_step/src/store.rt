// A block, the record's listing and marks, and the image.
ghost use Rattle.std.specs.Prelude.{◌≡◌, Err};
ghost use Rattle.section.specs.Answer.{refused};
ghost use Rattle.carousel_messages.specs.Heard.{arrived_in};
ghost use Rattle.carousel_step.specs.Step.{answer_of, image_after};
ghost use Rattle.carousel_step.specs.Held.{held_outcome, put_outcome, marks_after};

use crate::Answer;
use carousel_messages::{Block, MOST_BLOCKS};
use carousel_record::{Head, Slot, is_block, is_marked, set_mark};
use section::Refusal;
use wire::{copy_at, is_equal};

// A block of a section, for the entry that was found for it: 12 to 17, "stored" or "repeated". The rule is not
// checked: whoever takes many sections has checked it before.
pub fn take_block(
    h: Head,
    slot: Option<Slot>,
    b: Block,
    bytes: &[u8],
    marks: &mut [u32],
    image: &mut [u8],
) -> Result<Answer, Refusal>
    ensures { (result ≡ answer_of (held_outcome h slot marks.old image.old (arrived_in b bytes.now)))
        × (marks.new ≡ marks_after marks.old (held_outcome h slot marks.old image.old (arrived_in b bytes.now)))
        × (image.new ≡ image_after image.old (held_outcome h slot marks.old image.old (arrived_in b bytes.now))) }
{
    let n = h.count as usize;
    if n == 0 {
        return refuse(12);
    }
    if h.download != b.download {
        return refuse(12);
    }
    let Some(found) = slot else {
        return refuse(13);
    };
    let place = found.place;
    if n <= place {
        return refuse(13);
    }
    let m = found.entry;
    if m.version != b.version {
        return refuse(14);
    }
    if image.len() < h.bytes {
        return refuse(15);
    }
    let block = b.block as usize;
    if !is_block(h.block_size, m.size, block, bytes.len()) {
        return refuse(16);
    }
    let at = m.start as usize + block * h.block_size as usize;
    put(at, MOST_BLOCKS * place + block, bytes, marks, image)
}

// A refusal that has no place.
pub fn refuse(number: u8) -> Result<Answer, Refusal>
    ensures { result ≡ Err (refused number) }
{
    Err(Refusal {
        number,
        place: None,
    })
}

// A matching block, whose mark is k: "stored" from index `at` on, "repeated", or 17; 15 where the image does not hold it.
fn put(
    at: usize,
    k: usize,
    bytes: &[u8],
    marks: &mut [u32],
    image: &mut [u8],
) -> Result<Answer, Refusal>
    ensures { (result ≡ answer_of (put_outcome k at marks.old image.old bytes.now))
        × (marks.new ≡ marks_after marks.old (put_outcome k at marks.old image.old bytes.now))
        × (image.new ≡ image_after image.old (put_outcome k at marks.old image.old bytes.now)) }
{
    if image.len() < at {
        return refuse(15);
    }
    if image.len() - at < bytes.len() {
        return refuse(15);
    }
    if is_marked(marks, k) {
        let e = at + bytes.len();
        if is_equal(&image[at..e], bytes) {
            return Ok(Answer::Repeated);
        }
        return refuse(17);
    }
    copy_at(image, at, bytes);
    set_mark(marks, k);
    Ok(Answer::Stored)
}
