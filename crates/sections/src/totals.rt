// How many packets had which answer, over the whole input; and the line that tells it.
use transport::Counts;

pub const KINDS: usize = 7;

// The line's words have 69 bytes with its end, and each count has at most 20 digits.
const LINE: usize = 209;

// Adds what came of some packets, in the order of the line's words.
pub fn add(counts: &mut [usize], c: Counts) {
    let more = [
        c.taken,
        c.repeated,
        c.broken,
        c.refused40,
        c.refused41,
        c.refused42,
        c.refused43,
    ];
    // A count that has come to the most stays there.
    for (count, n) in counts.iter_mut().zip(more) {
        *count = count.saturating_add(n);
    }
}

// One line, in one write, on standard error.
pub fn tell(log: &impl Print, counts: &[usize]) {
    let mut line = [0u8; LINE];
    let mut end: usize = 0;
    for (i, count) in counts.iter().enumerate() {
        end = put_count(&mut line, end, i, *count);
    }
    end = text::put(&mut line, end, b"\n");
    let size = end.min(LINE);
    let _ = log.write_all(&line[..size]);
}

fn put_count(line: &mut [u8], at: usize, i: usize, count: usize) -> usize {
    let words = b"taken, ,repeated, ,broken, ,refused40, ,refused41, ,refused42, ,refused43,";
    let next = text::put_word(line, at, words, i);
    text::put_decimal(line, next, count as u64)
}
