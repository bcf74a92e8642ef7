// The record's rule. What it is, is said in specs/Record.antt.
ghost use Rattle.std.specs.Prelude.{◌≡◌, map, ◌≤◌, drop, take};
ghost use Rattle.wire.specs.Copies.{same_numbers};
ghost use Rattle.carousel_messages.specs.Limits.{most_modules};
ghost use Rattle.carousel_record.specs.Blocks.{blocks_of};
ghost use Rattle.carousel_record.specs.Marks.{module_words, marks_within};
ghost use Rattle.carousel_messages.specs.Heard.{sizes_of};
ghost use Rattle.carousel_record.specs.Record.{announced_by, listed_in, start_in, sums, is_unused, all_unused, within_limits, ruled_of};

use crate::blocks::blocks_of;
use crate::entries::listed;
use crate::marks::{MODULE_WORDS, is_clear_from};
use crate::{Carousel, Module};
use carousel_messages::{MOST_MODULES, has_twice, is_beyond};

// Whether a record keeps its rule.
pub fn is_ruled(c: Carousel) -> bool
    ensures { result ≡ ruled_of c }
{
    let n = c.count as usize;
    if MOST_MODULES < n {
        return false;
    }
    let ms = c.modules;
    if !all_unused(ms, n) {
        return false;
    }
    if !is_within_limits(c) {
        return false;
    }
    if !is_running(ms, n) {
        return false;
    }
    is_in_place(c)
}

fn is_unused(m: Module) -> bool
    ensures { result ≡ is_unused m }
{
    m == Module::default()
}

// Whether the entries from n on are unused.
fn all_unused(ms: [Module; MOST_MODULES], n: usize) -> bool
    requires { n ≤ most_modules }
    ensures { result ≡ all_unused (drop n ms) }
{
    for m in &ms[n..] {
        if !is_unused(*m) {
            return false;
        }
    }
    true
}

fn is_within_limits(c: Carousel) -> bool
    requires { c.count ≤ most_modules }
    ensures { result ≡ within_limits (announced_by c) }
{
    let n = c.count as usize;
    if n == 0 {
        if c.download != 0 {
            return false;
        }
        return c.block_size == 0;
    }
    let ms = listed(c);
    let modules = &ms[..n];
    if is_beyond(c.block_size, modules) {
        return false;
    }
    !has_twice(modules)
}

// Whether the starts of the first n entries are running sums.
fn is_running(ms: [Module; MOST_MODULES], n: usize) -> bool
    requires { n ≤ most_modules }
    ensures { result ≡ same_numbers (map start_in (take n ms)) (sums 0 (sizes_of (map listed_in (take n ms)))) }
{
    let mut sum: usize = 0;
    for m in &ms[..n] {
        if m.start as usize != sum {
            return false;
        }
        sum += m.size as usize;
    }
    true
}

// Whether no mark past a last block is set.
fn is_in_place(c: Carousel) -> bool
    requires { c.count ≤ most_modules }
    ensures { result ≡ marks_within module_words (map (λ z. blocks_of c.block_size z) (sizes_of (announced_by c).modules)) c.marks }
{
    let n = c.count as usize;
    let ms = c.modules;
    let marks = c.marks;
    let words: &[u32] = &marks;
    for i in 0..n {
        let at = MODULE_WORDS * i;
        let e = at + MODULE_WORDS;
        if !is_clear_from(&words[at..e], blocks_of(c.block_size, ms[i].size)) {
            return false;
        }
    }
    let at = MODULE_WORDS * n;
    is_clear_from(&words[at..], 0)
}
