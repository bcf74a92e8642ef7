// For a radio fitter: all that was read of each section and, at the end, of the record.
//
// It reads as `receive` does and prints comma-separated lines. They are listed in
// tests/test_inspect.py, an independent second program, which makes an input and says what must come
// out.
#![tactic(auto)]

mod fields;
mod items;
mod kinds;
mod page;
mod record;
mod table;
mod tag00;
mod tag01;
mod tag02;
mod tag05;
mod tag15;

use crate::fields::Maybe;
use crate::page::Page;
use crate::record::put_record;
use crate::table::put_table;
use carousel_step::Answer;
use receiver::{Kind, Section, Stop};
use std::fmt;
use std::fmt::Write;

// A buffer of the largest size.
pub type Buffer = [u8; streams::LARGE];

// The sections that are taken at most.
const BUDGET: usize = 65_536;

// An output that is closed ends the program.
fn main(rt: HostRuntime) {
    let mut stretch = [0; streams::LARGE];
    let n = streams::read_full(&mut rt.stdin(), &mut stretch);
    let mut image = [0; streams::LARGE];
    let mut page = Page::new(&rt);
    let _ = inspect(&mut page, &stretch[..n], &mut image);
}

// Runs an empty record over a stretch.
fn inspect<P: Print>(page: &mut Page<P>, stretch: &[u8], image: &mut Buffer) -> fmt::Result {
    let mut c = carousel_record::empty();
    let mut passed: usize = 0;
    for index in 0..=BUDGET {
        let took = receiver::take(c, &stretch[passed..], image, BUDGET - index);
        c = took.state;
        match took.what {
            Err(stop) => {
                let word = stop_name(stop);
                writeln!(page, "stop,{word}")?;
                put_record(page, c, image)?;
                return page.flush();
            }
            Ok(section) => {
                let next = passed + section.length;
                put_section(page, index, passed, &stretch[passed..next], section)?;
                passed = next;
            }
        }
    }
    Ok(())
}

// A section's line and, below an accepted table's, all that is read of it.
fn put_section<P: Print>(
    page: &mut Page<P>,
    index: usize,
    offset: usize,
    s: &[u8],
    section: Section,
) -> fmt::Result {
    let length = s.len();
    let table = wire::byte_at(s, 0);
    let fate = section.fate;
    let number = receiver::fate_number(fate);
    let place = Maybe(receiver::fate_place(fate));
    let Ok(kind) = fate else {
        return writeln!(
            page,
            "section,{index},{offset},{length},{table},{number},none,{place}"
        );
    };
    let word = kind_name(kind);
    writeln!(
        page,
        "section,{index},{offset},{length},{table},{number},{word},{place}"
    )?;
    if let Kind::Table = kind {
        return put_table(page, s);
    }
    Ok(())
}

fn kind_name(kind: Kind) -> &'static str {
    match kind {
        Kind::Table => "table",
        Kind::Carousel(Answer::New) => "new",
        Kind::Carousel(Answer::Same) => "same",
        Kind::Carousel(Answer::Stored) => "stored",
        Kind::Carousel(Answer::Repeated) => "repeated",
    }
}

fn stop_name(stop: Stop) -> &'static str {
    match stop {
        Stop::End => "end",
        Stop::Stuffing => "stuffing",
        Stop::Short => "short",
        Stop::Budget => "budget",
        Stop::State => "state",
    }
}
