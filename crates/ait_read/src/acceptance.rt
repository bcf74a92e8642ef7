// Acceptance of the section, and of a place in it.
ghost use Rattle.std.specs.Prelude.{◌≡◌};
ghost use Rattle.ait_read.specs.Acceptance.{table_judged, table_judged_by};
ghost use Rattle.ait_read.specs.Answers.{located_of};

use ait_descriptors::Span;
use section::{Header, Refusal, Rules};

// The section check's answer as it is, but for a body that 7 or 18 meets.
pub fn judge(s: &[u8]) -> Result<Header, Refusal>
    ensures { result ≡ table_judged s.now }
{
    judge_by(s, crc_tables::crc_of(s))
}

// The same for whoever has the register already: what `s` leaves, or any other number.
pub fn judge_by(s: &[u8], register: u32) -> Result<Header, Refusal>
    ensures { result ≡ table_judged_by register s.now }
{
    let header = section::check_by(s, Rules::Application, register)?;
    let e = s.len() - 4;
    if let Err(number) = ait_body::body_refusal(&s[8..e]) {
        let place = None;
        return Err(Refusal { number, place });
    }
    Ok(header)
}

// The section's own refusals, then 19.
pub fn locate(s: &[u8], p: Option<Span>) -> Result<Span, Refusal>
    ensures { result ≡ located_of s.now p }
{
    judge(s)?;
    p.ok_or(Refusal {
        number: 19,
        place: None,
    })
}
