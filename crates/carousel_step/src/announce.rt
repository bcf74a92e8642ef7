// An announcement, and the record.
ghost use Rattle.std.specs.Prelude.{◌≡◌, ◌&&◌, map, ◌≤◌, eqb, length, take};
ghost use Rattle.carousel_messages.specs.Limits.{most_modules, most_bytes, total};
ghost use Rattle.carousel_messages.specs.Heard.{list_of, announced_in, sizes_of};
ghost use Rattle.carousel_record.specs.Record.{announced_by, record_of, listed_in};
ghost use Rattle.carousel_record.specs.Changes.{bare_record, made_afresh};
ghost use Rattle.carousel_step.specs.Step.{same_modules, same_announced, on_announced, returning};

use crate::keep::kept_marks;
use crate::{Answer, Stepped};
use carousel_messages::{Announcement, Listed, MOST_MODULES, module_at};
use carousel_record::{Carousel, Module, empty};

// "Same", or "new" with the record made afresh. `list` is where the announced modules lie.
pub fn take_announcement(c: Carousel, a: Announcement, list: &[u8]) -> Stepped
    requires { (c.count ≤ most_modules) × (a.count ≤ most_modules) × (a.count ≡ length (list_of list.now)) × (total (sizes_of (list_of list.now)) ≤ most_bytes) }
    ensures { result ≡ returning c (on_announced (record_of c) (announced_in a list.now)) }
{
    if is_same(c, a, list) {
        return Stepped {
            answer: Ok(Answer::Same),
            state: c,
        };
    }
    let next = made_afresh(c, a, list);
    Stepped {
        answer: Ok(Answer::New),
        state: next,
    }
}

fn is_same(c: Carousel, a: Announcement, list: &[u8]) -> bool
    requires { (c.count ≤ most_modules) × (a.count ≡ length (list_of list.now)) }
    ensures { result ≡ same_announced (announced_by c) (announced_in a list.now) }
{
    if c.download != a.download {
        return false;
    }
    if c.block_size != a.block_size {
        return false;
    }
    let n = c.count as usize;
    if n != a.count {
        return false;
    }
    let ms = c.modules;
    is_same_list(ms, n, list)
}

fn is_same_list(ms: [Module; MOST_MODULES], n: usize, list: &[u8]) -> bool
    requires { (n ≤ most_modules) × (n ≡ length (list_of list.now)) }
    ensures { result ≡ same_modules (map listed_in (take n ms)) (list_of list.now) }
{
    let mut at: usize = 0;
    for i in 0..n {
        let from = &list[at..];
        if !is_same_module(ms[i], module_at(from, 0).unwrap_or_default()) {
            return false;
        }
        at += wire::measured_size(from, 8, 7).unwrap_or(0);
    }
    true
}

fn is_same_module(m: Module, l: Listed) -> bool
    ensures { result ≡ (eqb m.number l.number && eqb m.size l.size && eqb m.version l.version) }
{
    m.listed() == l
}

// The record after a new announcement: of the old one, the marks of modules that are the same stay.
fn made_afresh(c: Carousel, a: Announcement, list: &[u8]) -> Carousel
    requires { (c.count ≤ most_modules) × (a.count ≤ most_modules) × (a.count ≡ length (list_of list.now)) × (total (sizes_of (list_of list.now)) ≤ most_bytes) }
    ensures { result ≡ made_afresh c (announced_in a list.now) }
{
    let mut next = bare(a, list);
    let marks = kept_marks(c, next);
    next.marks = marks;
    next
}

// The record of an announcement of which no block has come.
fn bare(a: Announcement, list: &[u8]) -> Carousel
    requires { (a.count ≤ most_modules) × (a.count ≡ length (list_of list.now)) × (total (sizes_of (list_of list.now)) ≤ most_bytes) }
    ensures { result ≡ bare_record (announced_in a list.now) }
{
    let mut next = empty();
    next.download = a.download;
    next.block_size = a.block_size;
    next.count = a.count as u16;
    let mut sum: u32 = 0;
    let mut at: usize = 0;
    for i in 0..a.count {
        let from = &list[at..];
        let l = module_at(from, 0).unwrap_or_default();
        next.modules[i] = entry(l, sum);
        sum += l.size;
        at += wire::measured_size(from, 8, 7).unwrap_or(0);
    }
    next
}

fn entry(l: Listed, start: u32) -> Module
    ensures { result ≡ record { number = l.number; size = l.size; version = l.version; start = start } }
{
    Module {
        number: l.number,
        size: l.size,
        version: l.version,
        start: start,
    }
}
