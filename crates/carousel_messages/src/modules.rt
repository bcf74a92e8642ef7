// The payload of an announcement.
ghost use Rattle.std.specs.Prelude.{◌≡◌, ◌+◌, ◌≤◌, ◌<◌, eqb, length, take, slice_get};
ghost use Rattle.wire.specs.Fields.{sixteen_at};
ghost use Rattle.wire.specs.Items.{sized};
ghost use Rattle.wire.specs.Outcomes.{passed};
ghost use Rattle.carousel_messages.specs.declared.CarouselTable.TheVariants.{Announcements};
ghost use Rattle.carousel_messages.specs.Contents.{announcement_framed, module_count_of, modules_start, modules_end};
ghost use Rattle.carousel_messages.specs.Limits.{most_modules};
ghost use Rattle.carousel_messages.specs.Refusals.{payload_refusal};
ghost use Rattle.carousel_messages.specs.Heard.{list_of};

use crate::Listed;
use crate::limits::{MOST_MODULES, has_twice, is_beyond};
use section::Header;
use wire::{byte_at, sixteen_at, thirty_two_at};

// 7, 10 or 11 where an announcement's payload is not taken.
pub fn check_announcement(p: &[u8], h: Header) -> Result<(), u8>
    ensures { result ≡ passed (payload_refusal Announcements h p.now) }
{
    if !is_announcement(p) {
        return Err(7);
    }
    let count = module_count(p);
    if MOST_MODULES < count {
        return Err(10);
    }
    let start = modules_start(p);
    let ms = read_modules(&p[start..], count);
    let modules = &ms[..count];
    if is_beyond(sixteen_at(p, 4), modules) {
        return Err(10);
    }
    if has_twice(modules) {
        return Err(11);
    }
    Ok(())
}

// The first modules of a list that has as many, and zeros after them.
fn read_modules(list: &[u8], count: usize) -> [Listed; MOST_MODULES]
    requires { (count ≤ most_modules) × (count ≤ length (list_of list.now)) }
    ensures { take count result ≡ take count (list_of list.now) }
{
    let mut ms = [Listed::default(); MOST_MODULES];
    let mut at: usize = 0;
    for i in 0..count {
        let from = &list[at..];
        ms[i] = module_at(from, 0).unwrap_or_default();
        at += wire::measured_size(from, 8, 7).unwrap_or(0);
    }
    ms
}

// The module at a place of an announcement's modules, `list`.
pub fn module_at(list: &[u8], place: usize) -> Option<Listed>
    ensures { result ≡ slice_get (list_of list.now) place }
{
    let i = wire::measured_end(list, 0, place, 8, 7)?;
    wire::measured_size(&list[i..], 8, 7)?;
    Some(Listed {
        number: sixteen_at(list, i),
        size: thirty_two_at(list, i + 2),
        version: byte_at(list, i + 6),
    })
}

fn is_announcement(p: &[u8]) -> bool
    ensures { result ≡ announcement_framed p.now }
{
    if p.len() < modules_start(p) {
        return false;
    }
    let Some(e) = modules_end(p) else {
        return false;
    };
    ends_with_private(p, e)
}

// Where the modules begin, after the compatibility bytes and the count.
pub fn modules_start(p: &[u8]) -> usize
    ensures { (result ≡ modules_start p.now) × (result ≤ 65555) }
{
    20 + sixteen_at(p, 16) as usize
}

// How many modules there should be; the count stands just before them.
pub fn module_count(p: &[u8]) -> usize
    ensures { (result ≡ module_count_of p.now) × (result < 65536) }
{
    sixteen_at(p, modules_start(p) - 2) as usize
}

// Where the counted modules end, if there are as many.
pub fn modules_end(p: &[u8]) -> Option<usize>
    ensures { result ≡ sized (modules_end p.now) }
{
    wire::measured_end(p, modules_start(p), module_count(p), 8, 7)
}

// Whether private bytes, after their length at `e`, are all that is left.
fn ends_with_private(p: &[u8], e: usize) -> bool
    ensures { result ≡ eqb (e + 2 + sixteen_at p.now e) (length p.now) }
{
    if p.len() < 2 {
        return false;
    }
    if p.len() - 2 < e {
        return false;
    }
    e + 2 + sixteen_at(p, e) as usize == p.len()
}
