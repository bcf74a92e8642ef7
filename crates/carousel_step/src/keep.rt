// The marks that a new announcement keeps (specs/Keeping.antt of carousel_record).
ghost use Rattle.std.specs.Prelude.{◌≡◌, ◌+◌, ◌≤◌, length};
ghost use Rattle.wire.specs.Copies.{overwrite};
ghost use Rattle.carousel_messages.specs.Limits.{most_modules};
ghost use Rattle.carousel_record.specs.Record.{record_of};
ghost use Rattle.carousel_record.specs.Keeping.{marks_kept};
ghost use Rattle.carousel_step.specs.Held.{still_at};

use carousel_record::{Carousel, MARK_WORDS, MODULE_WORDS, Module, Slot, numbers_of, slot_in};

// The marks after a new announcement, `next` being its record without a mark: a module that is the same as before brings its own from
// its old place to its new one, and all others have none. With another downloadId or another blockSize no module is the same.
pub fn kept_marks(c: Carousel, next: Carousel) -> [u32; MARK_WORDS]
    requires { (c.count ≤ most_modules) × (next.count ≤ most_modules) }
    ensures { result ≡ marks_kept (record_of c) (record_of next) }
{
    let mut marks = [0u32; MARK_WORDS];
    if c.download != next.download {
        return marks;
    }
    if c.block_size != next.block_size {
        return marks;
    }
    let before = c.modules;
    let ms = next.modules;
    let numbers = numbers_of(before);
    let old = c.marks;
    let words: &[u32] = &old;
    for j in 0..next.count as usize {
        let slot = slot_in(&numbers, &before, c.count as usize, ms[j].number);
        if let Some(i) = still_at(slot, ms[j]) {
            let at = MODULE_WORDS * i;
            let e = at + MODULE_WORDS;
            put_words(&mut marks, MODULE_WORDS * j, &words[at..e]);
        }
    }
    marks
}

// The place of an entry that was found, where it is the same as k in all that entries hold.
fn still_at(slot: Option<Slot>, k: Module) -> Option<usize>
    ensures { result ≡ still_at slot k }
{
    let found = slot?;
    if found.entry == k {
        return Some(found.place);
    }
    None
}

// Lays words over others, which have room for them.
fn put_words(marks: &mut [u32], at: usize, words: &[u32])
    requires { at + length words.now ≤ length marks.old }
    ensures { marks.new ≡ overwrite marks.old at words.now }
{
    let e = at + words.len();
    marks[at..e].copy_from_slice(words);
}
