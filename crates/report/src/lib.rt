// What the paper's program prints of a stretch: the header, a line for each section taken, and the
// stop. The text is defined in specs/Report.antt.
#![tactic(auto)]

ghost use Rattle.std.specs.Prelude.{◌≡◌, length};
ghost use Rattle.std.proofs.lemmas.List.Edits.{sets};
ghost use Rattle.text.specs.Text.{reached};
ghost use Rattle.carousel_record.specs.Changes.{empty_record};
ghost use Rattle.receiver.specs.Run.{image_ran};
ghost use Rattle.report.specs.Report.{budget, printed, place_field, line_of, last_line};

use receiver::{Fate, Stop};

// The sections that the program takes at most.
const BUDGET: usize = 65_536;

// Bytes enough for the text of any stretch of 65,536: proofs/Whole.antt.
pub const ROOM: usize = 393_254;

// Runs an empty record over a stretch and puts the text at the start of `out`; answers the bytes
// put. Where `out` is shorter than the text, the rest of it is left out.
pub fn write_report(stretch: &[u8], image: &mut [u8], out: &mut [u8]) -> usize
    ensures { (out.new ≡ sets out.old 0 (printed stretch.now image.old))
        × (result ≡ reached 0 (length (printed stretch.now image.old)) (length out.old))
        × (image.new ≡ image_ran empty_record stretch.now image.old budget) }
{
    let mut c = carousel_record::empty();
    let mut at = text::put(out, 0, b"index,answer,kind,place\n");
    let mut index: usize = 0;
    let mut passed: usize = 0;
    loop {
        let took = receiver::take(c, &stretch[passed..], image, BUDGET - index);
        match took.what {
            Err(stop) => {
                return put_stop(out, at, stop);
            }
            Ok(section) => {
                at = put_line(out, at, index, section.fate);
                passed += section.length;
            }
        }
        c = took.state;
        index += 1;
    }
}

fn put_line(out: &mut [u8], at: usize, index: usize, fate: Fate) -> usize
    ensures { (out.new ≡ sets out.old at (line_of index fate)) × (result ≡ reached at (length (line_of index fate)) (length out.old)) }
{
    let number = receiver::fate_number(fate);
    let kind = receiver::kind_number(fate);
    let mut end = text::put_decimal(out, at, index as u64);
    end = text::put(out, end, b",");
    end = text::put_decimal(out, end, number as u64);
    end = text::put(out, end, b",");
    let kinds = b"none table new same stored repeated";
    end = text::put_word(out, end, kinds, kind as usize);
    end = put_place(out, end, receiver::fate_place(fate));
    text::put(out, end, b"\n")
}

// The last field, its comma before it: the byte where a section broke, or nothing.
fn put_place(out: &mut [u8], at: usize, place: Option<usize>) -> usize
    ensures { (out.new ≡ sets out.old at (place_field place)) × (result ≡ reached at (length (place_field place)) (length out.old)) }
{
    match place {
        None => text::put(out, at, b","),
        Some(p) => {
            let end = text::put(out, at, b",");
            text::put_decimal(out, end, p as u64)
        }
    }
}

fn put_stop(out: &mut [u8], at: usize, stop: Stop) -> usize
    ensures { (out.new ≡ sets out.old at (last_line stop)) × (result ≡ reached at (length (last_line stop)) (length out.old)) }
{
    let number = receiver::stop_number(stop);
    let mut end = text::put(out, at, b"stop,");
    // no stop has number 0
    let stops = b"- end stuffing short budget state";
    end = text::put_word(out, end, stops, number as usize);
    text::put(out, end, b"\n")
}
