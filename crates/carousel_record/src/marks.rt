// Received marks, in any number of words.
ghost use Rattle.std.specs.Prelude.{◌≡◌, ◌/◌, ◌^◌, eqb};
ghost use Rattle.carousel_record.specs.Marks.{is_marked, marks_with, clear_from};

use carousel_messages::{MOST_BLOCKS, MOST_MODULES};

// The words of one module's marks, 32 to a word.
pub const MODULE_WORDS: usize = MOST_BLOCKS / 32;

// The words of all marks of a record.
pub const MARK_WORDS: usize = MOST_MODULES * MODULE_WORDS;

// Mark k. Past the words there is none.
pub fn is_marked(words: &[u32], k: usize) -> bool
    ensures { result ≡ is_marked words.now k }
{
    let w = k / 32;
    if words.len() <= w {
        return false;
    }
    (words[w] >> (k % 32) as u32) % 2 == 1
}

// Sets mark k. Past the words there is none to set.
pub fn set_mark(words: &mut [u32], k: usize)
    ensures { words.new ≡ marks_with words.old k }
{
    let word = k / 32;
    if words.len() <= word {
        return;
    }
    let bit = (k % 32) as u32;
    let before = words[word];
    words[word] = before | (1u32 << bit);
}

// Whether no mark from n on is set.
pub fn is_clear_from(words: &[u32], n: usize) -> bool
    ensures { result ≡ clear_from n words.now }
{
    let mut left = n;
    for i in 0..words.len() {
        if left == 0 {
            return is_zero(&words[i..]);
        }
        if !is_word_clear(words[i], left) {
            return false;
        }
        left = left.saturating_sub(32);
    }
    true
}

// Whether no mark is set. Without an early return, so that it becomes vector code: the rule looks at most words this way.
fn is_zero(words: &[u32]) -> bool
    ensures { result ≡ clear_from 0 words.now }
{
    let mut all: u32 = 0;
    for w in words {
        all |= *w;
    }
    all == 0
}

// Whether nothing is left of a word above its first n marks.
fn is_word_clear(word: u32, n: usize) -> bool
    ensures { result ≡ eqb (word / 2 ^ n) 0 }
{
    if 32 <= n {
        return true;
    }
    word >> n as u32 == 0
}
