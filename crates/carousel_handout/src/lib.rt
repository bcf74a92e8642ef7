// What is handed out of a carousel record and its image, and what a module lacks.
//
// The record is crate `carousel_record`; the hand-out and the missing report are in specs/Calls.antt. No call trusts the record: one that breaks
// its rule is refused with 1.
#![tactic(auto)]

mod lacks;

ghost use Rattle.std.specs.Prelude.{◌≡◌, ◌+◌, ◌≤◌, IfOk, length};
ghost use Rattle.wire.specs.Outcomes.{answered};
ghost use Rattle.section.specs.Answer.{refused};
ghost use Rattle.carousel_record.specs.Record.{announced_by, place_of};
ghost use Rattle.carousel_handout.specs.Calls.{handout_number, handout_place, lent, handed_out, missing_number, report_of, number_of_report};

use carousel_record::{Carousel, bytes_of, is_ruled, place_of};
use lacks::lack_of;
use section::Refusal;
use wire::Span;

// How many blocks are missing, and the lowest of them.
#[derive(Clone, Copy)]
pub struct Lack {
    pub count: usize,
    pub lowest: usize,
}

// Where in the image the module with this number lies; else 1, 13, 15 or 20.
pub fn handout_place(c: Carousel, image: &[u8], number: u16) -> Result<Span, Refusal>
    ensures { (result ≡ handout_place c image.now number)
        × (IfOk result (λ p. p.start + p.size ≤ length image.now))
        × (lent result image.now ≡ handed_out c image.now number) }
{
    match check_handout(c, image, number) {
        Err(n) => Err(refusal(n)),
        Ok(place) => {
            let ms = c.modules;
            let m = ms[place];
            Ok(Span {
                start: m.start as usize,
                size: m.size as usize,
            })
        }
    }
}

// The place of the module with this number, where it is handed out; else 1, 13, 15 or 20.
fn check_handout(c: Carousel, image: &[u8], number: u16) -> Result<usize, u8>
    ensures { result ≡ answered (handout_number c image.now number) (place_of (announced_by c) number) }
{
    if !is_ruled(c) {
        return Err(1);
    }
    let Some(i) = place_of(c, number) else {
        return Err(13);
    };
    if image.len() < bytes_of(c) {
        return Err(15);
    }
    if lack_of(c, i).count != 0 {
        return Err(20);
    }
    Ok(i)
}

// The module's part of the image where it is handed out, else an empty one.
pub fn handout<'a>(c: Carousel, image: &'a [u8], number: u16) -> &'a [u8]
    ensures { result.now ≡ handed_out c image.now number }
{
    let Ok(p) = handout_place(c, image, number) else {
        return &image[..0];
    };
    let at = p.start;
    let e = at + p.size;
    &image[at..e]
}

// How many blocks of the module with this number are missing, and the lowest of them; none of a complete one. Else 1 or 13.
pub fn missing(c: Carousel, number: u16) -> Result<Option<Lack>, Refusal>
    ensures { (result ≡ report_of c number) × (number_of_report result ≡ missing_number c number) }
{
    if !is_ruled(c) {
        return Err(refusal(1));
    }
    let Some(i) = place_of(c, number) else {
        return Err(refusal(13));
    };
    let lack = lack_of(c, i);
    if lack.count == 0 {
        return Ok(None);
    }
    Ok(Some(lack))
}

// A refusal that has no place.
fn refusal(number: u8) -> Refusal
    ensures { result ≡ refused number }
{
    Refusal {
        number,
        place: None,
    }
}
