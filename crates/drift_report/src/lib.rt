// What the program `driftlist` prints of a stretch and a module's number. The text is defined in
// specs/Page.antt, a list's part of it in specs/Lines.antt.
#![tactic(auto)]

mod argument;
mod lines;

ghost use Rattle.std.specs.Prelude.{◌≡◌, length};
ghost use Rattle.std.proofs.lemmas.List.Edits.{sets};
ghost use Rattle.text.specs.Text.{reached};
ghost use Rattle.carousel_record.specs.Changes.{empty_record};
ghost use Rattle.receiver.specs.Run.{image_ran};
ghost use Rattle.drift_report.specs.Page.{page_budget, lack_text, refused_text, module_text, page_text};

pub use argument::module_asked;
use carousel_handout::Lack;
use carousel_record::Carousel;
use lines::put_list;
use section::Refusal;

// The sections that the program takes at most.
const BUDGET: usize = 65_536;

// Bytes enough for the text of any image of 65,536: proofs/Whole.antt.
pub const ROOM: usize = 409_700;

// Runs an empty record over a stretch and puts the text of the module with this number at the start
// of `out`; answers the bytes put. Where `out` is shorter than the text, the rest of it is left out.
pub fn write_page(stretch: &[u8], image: &mut [u8], number: u16, out: &mut [u8]) -> usize
    ensures { (out.new ≡ sets out.old 0 (page_text stretch.now image.old number))
        × (result ≡ reached 0 (length (page_text stretch.now image.old number)) (length out.old))
        × (image.new ≡ image_ran empty_record stretch.now image.old page_budget) }
{
    let ran = receiver::run(carousel_record::empty(), stretch, image, BUDGET);
    let c = ran.state;
    put_module(out, c, image, number)
}

// The text of a module: its list, if it is handed out, else why not.
fn put_module(out: &mut [u8], c: Carousel, image: &[u8], number: u16) -> usize
    ensures { (out.new ≡ sets out.old 0 (module_text c image.now number))
        × (result ≡ reached 0 (length (module_text c image.now number)) (length out.old)) }
{
    match carousel_handout::handout_place(c, image, number) {
        Ok(part) => {
            let e = part.start + part.size;
            put_list(out, &image[part.start..e])
        }
        Err(refusal) => put_refused(out, c, number, refusal.number),
    }
}

fn put_refused(out: &mut [u8], c: Carousel, number: u16, n: u8) -> usize
    ensures { (out.new ≡ sets out.old 0 (refused_text c number n))
        × (result ≡ reached 0 (length (refused_text c number n)) (length out.old)) }
{
    let mut end = text::put(out, 0, b"handout,");
    end = text::put_decimal(out, end, n as u64);
    if n != 20 {
        return text::put(out, end, b"\n");
    }
    end = put_lack(out, end, carousel_handout::missing(c, number));
    text::put(out, end, b"\n")
}

// The two numbers of the missing report, a comma before each; nothing where it has none.
fn put_lack(out: &mut [u8], at: usize, report: Result<Option<Lack>, Refusal>) -> usize
    ensures { (out.new ≡ sets out.old at (lack_text report)) × (result ≡ reached at (length (lack_text report)) (length out.old)) }
{
    match report {
        Ok(Some(lack)) => {
            let mut end = text::put(out, at, b",");
            end = text::put_decimal(out, end, lack.count as u64);
            end = text::put(out, end, b",");
            text::put_decimal(out, end, lack.lowest as u64)
        }
        Ok(None) => at,
        Err(_) => at,
    }
}
