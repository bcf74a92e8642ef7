// The run over many sections, and what a wheelhouse box calls.
//
// What stands at a place of a stretch, what one section comes to, and the run are defined in
// specs/Run.antt, the numbers of kinds and stops in specs/Kinds.antt. A section of table 0x74 goes by
// the application rules, every other by the carousel's.
#![tactic(auto)]

ghost use Rattle.std.specs.Prelude.{◌≡◌, true, ◌≤◌, length};
ghost use Rattle.ait_read.specs.Acceptance.{table_judged_by};
ghost use Rattle.carousel_messages.specs.Judged.{judged_by};
ghost use Rattle.carousel_record.specs.Record.{ruled_of};
ghost use Rattle.receiver.specs.Run.{stopped_by, stop_at, given_of, image_given, took_of, image_took, number_took, took_number, ran_of, image_ran, judged_fate, carousel_fate};
ghost use Rattle.receiver.specs.Run.{number_of_fate, place_of_fate};
ghost use Rattle.receiver.specs.Kinds.{kind_number, stop_number};

use carousel_messages::{Message, judge_by};
use carousel_record::{Carousel, head_of, is_ruled, joined, numbers_of, slot_in};
use carousel_step::{Answer, take_block};
use section::{Refusal, whole_at};

// Why a run stops.
#[derive(Clone, Copy)]
pub enum Stop {
    End,
    Stuffing,
    Short,
    Budget,
    State,
}

// What an accepted section was: a table, or what the carousel answered.
#[derive(Clone, Copy)]
pub enum Kind {
    Table,
    Carousel(Answer),
}

// What became of a section: its kind, or its refusal.
pub type Fate = Result<Kind, Refusal>;

// A section that was taken.
#[derive(Clone, Copy)]
pub struct Section {
    pub length: usize,
    pub fate: Fate,
}

// What stood at a place, a section or a stop, beside the record after it.
#[derive(Clone, Copy)]
pub struct Took {
    pub what: Result<Section, Stop>,
    pub state: Carousel,
}

// What became of one whole section, beside the record after it.
#[derive(Clone, Copy)]
pub struct Given {
    pub fate: Fate,
    pub state: Carousel,
}

// How far a run came: the sections taken, the bytes passed, and why it stopped.
#[derive(Clone, Copy)]
pub struct Passage {
    pub taken: usize,
    pub passed: usize,
    pub stop: Stop,
}

// A run by value: its passage, beside the record after it.
#[derive(Clone, Copy)]
pub struct Ran {
    pub passage: Passage,
    pub state: Carousel,
}

// What stands at the head of a stretch: a stop, or one section, taken.
pub fn take(c: Carousel, stretch: &[u8], image: &mut [u8], budget: usize) -> Took
    ensures { (result ≡ took_of c stretch.now image.old budget)
        × (image.new ≡ image_took c stretch.now image.old budget)
        × (number_took result.what ≡ took_number c stretch.now image.old budget) }
{
    if !is_ruled(c) {
        return stopped(c, Stop::State);
    }
    let Some(n) = whole_at(stretch) else {
        return stopped(c, stop_at(stretch));
    };
    if budget == 0 {
        return stopped(c, stop_at(stretch));
    }
    let g = give(c, &stretch[..n], image);
    let section = Section {
        length: n,
        fate: g.fate,
    };
    Took {
        what: Ok(section),
        state: g.state,
    }
}

// What an answer of the carousel makes of a section.
pub fn carousel_fate(a: Result<Answer, Refusal>) -> Fate
    ensures { result ≡ carousel_fate a }
{
    Ok(Kind::Carousel(a?))
}

// The paper's number of what became of a section; 0 where it was accepted.
pub fn fate_number(f: Fate) -> u8
    ensures { result ≡ number_of_fate f }
{
    match f {
        Ok(_) => 0,
        Err(r) => r.number,
    }
}

// Where it broke; nowhere if it was accepted.
pub fn fate_place(f: Fate) -> Option<usize>
    ensures { result ≡ place_of_fate f }
{
    match f {
        Ok(_) => None,
        Err(r) => r.place,
    }
}

// Its kind, as a number.
pub fn kind_number(f: Fate) -> u8
    ensures { result ≡ kind_number f }
{
    match f {
        Err(_) => 0,
        Ok(Kind::Table) => 1,
        Ok(Kind::Carousel(Answer::New)) => 2,
        Ok(Kind::Carousel(Answer::Same)) => 3,
        Ok(Kind::Carousel(Answer::Stored)) => 4,
        Ok(Kind::Carousel(Answer::Repeated)) => 5,
    }
}

// Why a run stops, as a number; 0 is none of them.
pub fn stop_number(s: Stop) -> u8
    ensures { result ≡ stop_number s }
{
    match s {
        Stop::End => 1,
        Stop::Stuffing => 2,
        Stop::Short => 3,
        Stop::Budget => 4,
        Stop::State => 5,
    }
}

// The run: sections are taken until there is a reason to stop. The rule is checked and the tables of the CRC are made once, before
// the first section; and the record is held in its parts, so that no block has it copied.
pub fn run(c: Carousel, stretch: &[u8], image: &mut [u8], budget: usize) -> Ran
    ensures { (result ≡ ran_of c stretch.now image.old budget)
        × (image.new ≡ image_ran c stretch.now image.old budget) }
{
    let ruled = is_ruled(c);
    if !ruled {
        return ended(c, 0, 0, Stop::State);
    }
    let tables = crc_tables::tables();
    let mut h = head_of(c);
    let mut ms = c.modules;
    let mut numbers = numbers_of(ms);
    let mut marks = c.marks;
    let mut passed: usize = 0;
    for taken in 0..budget {
        let rest = &stretch[passed..];
        let Some(n) = whole_at(rest) else {
            return ended(joined(h, ms, marks), taken, passed, stop_at(rest));
        };
        let s = &rest[..n];
        passed += n;
        let judged = hear(s, crc_tables::crc_by(&tables, s));
        match judged {
            Err(_) => {}
            Ok(Message::Carried(b)) => {
                let slot = slot_in(&numbers, &ms, h.count as usize, b.number);
                let at = b.part.start;
                let e = at + b.part.size;
                let _ = take_block(h, slot, b, &s[at..e], &mut marks, image);
            }
            Ok(Message::Announced(_)) => {
                let g = give(joined(h, ms, marks), s, image);
                let next = g.state;
                h = head_of(next);
                ms = next.modules;
                numbers = numbers_of(ms);
                marks = next.marks;
            }
        }
    }
    ended(
        joined(h, ms, marks),
        budget,
        passed,
        stop_at(&stretch[passed..]),
    )
}

// The run over a lent record, changed in place. Thin, over the run by value.
pub fn run_in(c: &mut Carousel, stretch: &[u8], image: &mut [u8], budget: usize) -> Passage
    ensures { (result ≡ (ran_of c.old stretch.now image.old budget).passage)
        × (c.new ≡ (ran_of c.old stretch.now image.old budget).state)
        × (image.new ≡ image_ran c.old stretch.now image.old budget) }
{
    let ran = run(*c, stretch, image, budget);
    *c = ran.state;
    ran.passage
}

fn stopped(c: Carousel, stop: Stop) -> Took
    ensures { result ≡ stopped_by c stop }
{
    Took {
        what: Err(stop),
        state: c,
    }
}

fn ended(c: Carousel, taken: usize, passed: usize, stop: Stop) -> Ran
    ensures { result ≡ record { passage = record { taken = taken; passed = passed; stop = stop }; state = c } }
{
    let passage = Passage {
        taken: taken,
        passed: passed,
        stop: stop,
    };
    Ran {
        passage: passage,
        state: c,
    }
}

// Why a run stops at a place where it takes nothing.
fn stop_at(s: &[u8]) -> Stop
    ensures { result ≡ stop_at s.now }
{
    if s.len() == 0 {
        return Stop::End;
    }
    if wire::byte_at(s, 0) == section::STUFFING {
        return Stop::Stuffing;
    }
    match whole_at(s) {
        None => Stop::Short,
        Some(_) => Stop::Budget,
    }
}

// What a section is to the carousel, by the register that it leaves. A table is read as everywhere; what it says is no part of a run.
fn hear(s: &[u8], register: u32) -> Result<Message, Refusal>
    ensures { result ≡ judged_by register s.now }
{
    if wire::byte_at(s, 0) == section::APPLICATION_TABLE {
        let _ = table_fate(s, register);
    }
    judge_by(s, register)
}

// One whole section, by its table number.
fn give(c: Carousel, s: &[u8], image: &mut [u8]) -> Given
    ensures { (result ≡ given_of c s.now image.old) × (image.new ≡ image_given c s.now image.old) }
{
    let table = wire::byte_at(s, 0);
    if table == section::APPLICATION_TABLE {
        return Given {
            fate: table_fate(s, crc_tables::crc_of(s)),
            state: c,
        };
    }
    let st = carousel_step::step(c, s, image);
    Given {
        fate: carousel_fate(st.answer),
        state: st.state,
    }
}

fn table_fate(s: &[u8], register: u32) -> Fate
    ensures { result ≡ judged_fate (table_judged_by register s.now) }
{
    ait_read::judge_by(s, register)?;
    Ok(Kind::Table)
}
