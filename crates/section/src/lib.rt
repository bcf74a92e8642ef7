// One section: its header, its CRC, and the check that every table shares (refusals 2 to 6).
//
// What each field, the CRC and each refusal is, is said in specs/; the answer of `check` is an
// equation with `checked_of` of specs/Answer.antt for every slice, the empty one included.
#![tactic(auto)]

mod register;

ghost use Rattle.std.specs.Prelude.{◌≡◌, not, cond, ◌≤◌, length, IfSome};
ghost use Rattle.wire.specs.Items.{sized};
ghost use Rattle.wire.specs.Outcomes.{passed};
ghost use Rattle.section.specs.Header.{is_table, limit_of, header_of};
ghost use Rattle.section.specs.Refusals.{refusal_by, refusal_of, misframed, spot_of};
ghost use Rattle.section.specs.Whole.{whole_at};
ghost use Rattle.section.specs.Answer.{number_of_checked, checked_by, checked_of};

pub use register::crc;

pub const APPLICATION_TABLE: u8 = 0x74;

pub const ANNOUNCEMENT_TABLE: u8 = 0x3B;

pub const BLOCK_TABLE: u8 = 0x3C;

// The byte that fills a stretch after its last section.
pub const STUFFING: u8 = 0xFF;

// The bytes of a section up to the end of its length.
const UP_TO_LENGTH: usize = 3;

// The largest lengths L: of an application section, and of a carousel section.
pub const APPLICATION_LIMIT: usize = 1021;

pub const CAROUSEL_LIMIT: usize = 4093;

// Where in a section its length and syntax indicator stand, its current_next, and its numbers.
const LENGTH_AT: usize = 1;

const CURRENT_AT: usize = 5;

const NUMBERS_AT: usize = 6;

// The bytes of the CRC, its last.
const CRC_SIZE: usize = 4;

// By whose rules a section is judged: the application's, or the carousel's.
#[derive(Clone, Copy)]
pub enum Rules {
    Application,
    Carousel,
}

// A refusal: its number in the paper and, for 2 to 6, its place, where the section broke: a byte, counted from its first. Callers hand it
// on as it is.
#[derive(Clone, Copy)]
pub struct Refusal {
    pub number: u8,
    pub place: Option<usize>,
}

// The fields of an accepted section's header.
#[derive(Clone, Copy)]
pub struct Header {
    pub table: u8,
    pub extension: u16,
    pub version: u8,
    pub section: u8,
    pub last: u8,
}

// Whether `s` is one whole section by these rules.
pub fn check(s: &[u8], rules: Rules) -> Result<Header, Refusal>
    ensures { (result ≡ checked_of rules s.now) × (number_of_checked result ≡ refusal_of rules s.now) }
{
    check_by(s, rules, crc(s))
}

// The length of the section that a stretch begins with, if it begins with a whole one.
pub fn whole_at(s: &[u8]) -> Option<usize>
    ensures { (result ≡ sized (whole_at s.now)) × IfSome result (λ n. n ≤ length s.now) }
{
    if s.len() < UP_TO_LENGTH {
        return None;
    }
    if wire::byte_at(s, 0) == STUFFING {
        return None;
    }
    let n = UP_TO_LENGTH + wire::twelve_at(s, 1);
    if s.len() < n {
        return None;
    }
    Some(n)
}

// The same for whoever has the register already: what `s` leaves, or any other number.
pub fn check_by(s: &[u8], rules: Rules, register: u32) -> Result<Header, Refusal>
    ensures { (result ≡ checked_by register rules s.now) × (number_of_checked result ≡ refusal_by register rules s.now) }
{
    if let Err(number) = judge(s, rules, register) {
        let place = spot_of(s, rules, number);
        return Err(Refusal { number, place });
    }
    Ok(header_of(s))
}

// The number that refuses `s`, if one does.
fn judge(s: &[u8], rules: Rules, register: u32) -> Result<(), u8>
    ensures { result ≡ passed (refusal_by register rules s.now) }
{
    if s.len() < 3 {
        return Err(2);
    }
    let length = wire::twelve_at(s, 1);
    if s.len() != 3 + length {
        return Err(2);
    }
    if !has_table(rules, s[0]) {
        return Err(3);
    }
    if !is_framed(s, rules) {
        return Err(4);
    }
    if s[7] < s[6] {
        return Err(4);
    }
    if register != 0 {
        return Err(5);
    }
    if s[5] & 1 == 0 {
        return Err(6);
    }
    Ok(())
}

// Whether L is within these rules' limits, and the syntax indicator is 1.
fn is_framed(s: &[u8], rules: Rules) -> bool
    ensures { not result ≡ misframed rules s.now }
{
    let length = wire::twelve_at(s, 1);
    if length < 9 {
        return false;
    }
    if limit(rules) < length {
        return false;
    }
    if wire::sixteen_at(s, 1) >> 15 == 0 {
        return false;
    }
    true
}

// Where a section broke that is refused with this number.
fn spot_of(s: &[u8], rules: Rules, number: u8) -> Option<usize>
    requires { number ≡ 5 → 4 ≤ length s.now }
    ensures { result ≡ spot_of rules s.now number }
{
    match number {
        2 => Some(s.len()),
        3 => Some(0),
        4 => Some(header_spot(s, rules)),
        5 => Some(s.len() - CRC_SIZE),
        6 => Some(CURRENT_AT),
        _ => None,
    }
}

// Where the header broke: at its numbers only if all before them is right.
fn header_spot(s: &[u8], rules: Rules) -> usize
    ensures { result ≡ cond (misframed rules s.now) 1 6 }
{
    if is_framed(s, rules) {
        return NUMBERS_AT;
    }
    LENGTH_AT
}

// Whether these rules take a table of this number.
fn has_table(rules: Rules, table: u8) -> bool
    ensures { result ≡ is_table rules table }
{
    match rules {
        Rules::Application => table == APPLICATION_TABLE,
        Rules::Carousel => {
            if table == ANNOUNCEMENT_TABLE {
                return true;
            }
            table == BLOCK_TABLE
        }
    }
}

// The largest L that these rules take.
fn limit(rules: Rules) -> usize
    ensures { result ≡ limit_of rules }
{
    match rules {
        Rules::Application => APPLICATION_LIMIT,
        Rules::Carousel => CAROUSEL_LIMIT,
    }
}

fn header_of(s: &[u8]) -> Header
    ensures { result ≡ header_of s.now }
{
    Header {
        table: wire::byte_at(s, 0),
        extension: wire::sixteen_at(s, 3),
        version: (wire::byte_at(s, 5) >> 1) & 0x1F,
        section: wire::byte_at(s, 6),
        last: wire::byte_at(s, 7),
    }
}
