// The drift list: an issue, a count and fixes of buoys, packed into bits; read and written.
//
// What a list is, is said in specs/Values.antt (as values) and specs/Reading.antt (as bytes); what
// the calls answer, in specs/Answers.antt and specs/Writing.antt. Nothing is trusted: every call
// judges the bytes or the numbers that it is lent.
#![tactic(auto)]

mod given;
mod judge;
mod pack;
mod unpack;

ghost use Rattle.std.specs.Prelude.{◌≡◌, length};
ghost use Rattle.drift_list.specs.Values.{state_of, state_number, fix_of};
ghost use Rattle.drift_list.specs.Answers.{list_answer, fix_answer, walk_answer};
ghost use Rattle.drift_list.specs.Writing.{draft, write_answer, written_bytes};

use given::{fields_in, judge_draft};
use judge::{judge_list, judge_walk};
use pack::{put_fix, put_four};
use unpack::fields_of;

// What is known of a buoy: nothing, where it is, or where it last was.
#[derive(Clone, Copy)]
pub enum State {
    None,
    Fix,
    LastKnown,
}

// A record of the list. Coordinates are in 1/10,000 minute, east and north positive; the minute is
// of the week.
#[derive(Clone, Copy)]
pub struct Fix {
    pub buoy: u32,
    pub state: State,
    pub longitude: i32,
    pub latitude: i32,
    pub minute: u16,
}

// The same as it stands in a record's bits, the state a number.
#[derive(Clone, Copy)]
pub struct Fields {
    pub buoy: u32,
    pub state: u8,
    pub longitude: i32,
    pub latitude: i32,
    pub minute: u16,
}

// What a list begins with: its issue, and how many records it has.
#[derive(Clone, Copy)]
pub struct Heading {
    pub issue: u16,
    pub count: u16,
}

// Judges a whole list: the refusal's number, or its heading.
pub fn read(list: &[u8]) -> Result<Heading, u8>
    ensures { result ≡ list_answer list.now }
{
    judge_list(list)?;
    let issue = wire::sixteen_at(list, 0);
    let count = wire::sixteen_at(list, 2);
    Ok(Heading { issue, count })
}

// Record k, from 0, of a list that is accepted; 19 past its last. It judges the whole list each time.
pub fn record_at(list: &[u8], k: usize) -> Result<Fix, u8>
    ensures { result ≡ fix_answer list.now k }
{
    judge_list(list)?;
    let count = wire::sixteen_at(list, 2) as usize;
    if count <= k {
        return Err(19);
    }
    Ok(Fix::from(fields_of(&list[4 + 12 * k..])))
}

// Record k, judged by itself and against the buoy before it: what record_at answers wherever read
// accepts the list. Asked from 0 on, its first refusal is the list's own, or 19 after the last
// record of an accepted list.
pub fn walk_at(list: &[u8], k: usize) -> Result<Fix, u8>
    ensures { result ≡ walk_answer list.now k }
{
    judge_walk(list, k)?;
    Ok(Fix::from(fields_of(&list[4 + 12 * k..])))
}

// Writes a whole list: five numbers for each record, buoy, state, longitude, latitude and minute. It
// answers the list's size, or the refusal's number, and then nothing is written.
pub fn write(issue: u32, count: u32, numbers: &[i32], out: &mut [u8]) -> Result<usize, u8>
    ensures { (result ≡ write_answer (draft issue count numbers.now) (length out.old))
        × (out.new ≡ written_bytes (draft issue count numbers.now) out.old) }
{
    judge_draft(issue, count, numbers, out.len())?;
    let c = count as usize;
    put_four(out, 0, issue * 65_536 + count);
    for k in 0..c {
        put_fix(out, 4 + 12 * k, fields_in(&numbers[5 * k..]));
    }
    Ok(4 + 12 * c)
}

// The paper's number of a state.
pub fn state_number(s: State) -> u8
    ensures { result ≡ state_number s }
{
    match s {
        State::None => 0,
        State::Fix => 1,
        State::LastKnown => 2,
    }
}

// What a record is handed out as.
impl From<Fields> for Fix {
    ghost from_gives = { λ f r. r ≡ fix_of f };

    fn from(f: Fields) -> Fix {
        Fix {
            buoy: f.buoy,
            state: state_of(f.state),
            longitude: f.longitude,
            latitude: f.latitude,
            minute: f.minute,
        }
    }
}

// What a good record's state says: it is 0, 1 or 2.
fn state_of(n: u8) -> State
    ensures { result ≡ state_of n }
{
    match n {
        0 => State::None,
        1 => State::Fix,
        _ => State::LastKnown,
    }
}
